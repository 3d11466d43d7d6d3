// The operators of conditions.
ghost use Rattle.std.specs.Prelude.{◌≡◌};
ghost use Rattle.query.specs.ConditionText.{operator_text, operator_of};
ghost use Rattle.query.specs.Bound.{accepts};

use std::cmp::Ordering;

/// How a value is compared with a literal.
#[derive(Clone, Copy)]
pub enum Operator {
    Equal,
    NotEqual,
    Less,
    AtMost,
    Greater,
    AtLeast,
}

const OPERATORS: [Operator; 6] = [
    Operator::Equal,
    Operator::NotEqual,
    Operator::Less,
    Operator::AtMost,
    Operator::Greater,
    Operator::AtLeast,
];

fn operator_text(operator: Operator) -> &'static str
    ensures { result.now ≡ operator_text operator }
{
    match operator {
        Operator::Equal => "=",
        Operator::NotEqual => "!=",
        Operator::Less => "<",
        Operator::AtMost => "<=",
        Operator::Greater => ">",
        Operator::AtLeast => ">=",
    }
}

#[tactic(auto, using(crate::proofs::Naming::skip_one), unfolding(crate::specs::ConditionText::operator_of))]
pub(crate) fn operator_of(text: &str) -> Option<Operator>
    ensures { result ≡ operator_of text.now }
{
    for operator in &OPERATORS {
        if operator_text(*operator) == text {
            return Some(*operator);
        }
    }
    None
}

// Returns whether two values of this order are as the operator asks.
pub(crate) fn accepts(operator: Operator, order: Ordering) -> bool
    ensures { result ≡ accepts operator order }
{
    match operator {
        Operator::Equal => order.is_eq(),
        Operator::NotEqual => order.is_ne(),
        Operator::Less => order.is_lt(),
        Operator::AtMost => order.is_le(),
        Operator::Greater => order.is_gt(),
        Operator::AtLeast => order.is_ge(),
    }
}
