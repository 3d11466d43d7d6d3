// Conditions and the strings that state them.
use crate::errors::QueryError;
use crate::operator::{Operator, operator_of};
use std::alloc::{AllocError, Global};

/// What a condition asks of a value. A literal is the string as it was typed; [`crate::bind_query`] reads it by the column's type.
#[derive(Drop)]
pub enum Test {
    IsNull,
    IsNotNull,
    Compared(Operator, String),
}

/// A condition on the column of this name.
#[derive(Drop)]
pub struct Condition {
    pub column: String,
    pub test: Test,
}

impl Condition {
    ghost use Rattle.std.specs.Prelude.{◌≡◌, Some, IfOk, IfErr};
    ghost use Rattle.query.specs.ConditionText.{condition_of};
    ghost use Rattle.query.specs.View.{condition_in, IsNoCondition};

    /// Parses a condition `NAME OP LITERAL`, `NAME is null` or `NAME is not null`, with single spaces between the parts. A name has no space and
    /// may be empty; a literal is all that follows, and may be empty.
    ///
    /// ```
    /// let condition = Condition::parse(alloc, "day >= 20003")?;
    /// ```
    ///
    /// # Errors
    /// `BadCondition` if the string has none of these forms; `OutOfMemory`.
    #[tactic(auto, unfolding(crate::specs::ConditionText::condition_of))]
    pub fn parse(alloc: Global, text: &str) -> Result<Condition, QueryError>
        ensures ok { IfOk result (λ c. condition_of text.now ≡ Some (condition_in c)) }
        ensures refused { IfErr result (λ e. IsNoCondition e (condition_of text.now)) }
    {
        let Some((column, rest)) = split_at_space(text) else {
            return Err(QueryError::BadCondition);
        };
        let Some(test) = parse_test(alloc, rest)? else {
            return Err(QueryError::BadCondition);
        };
        Ok(Condition {
            column: String::from_str(alloc, column)?,
            test,
        })
    }
}

ghost use Rattle.std.specs.Prelude.{◌≡◌, option_map, IfOk};
ghost use Rattle.query.specs.ConditionText.{split_at_space, test_of, comparison_of};
ghost use Rattle.facts.specs.Outcomes.{Reads};
ghost use Rattle.query.specs.View.{test_in};

// Splits a text at its first space.
fn split_at_space(text: &str) -> Option<(&str, &str)>
    ensures { Reads (λ p. (p.0.now, p.1.now)) result (split_at_space text.now) }
{
    text.split_once(' ')
}

#[tactic(auto, unfolding(crate::specs::ConditionText::comparison_of))]
fn parse_comparison(alloc: Global, text: &str) -> Result<Option<Test>, AllocError>
    ensures { IfOk result (λ t. option_map test_in t ≡ comparison_of text.now) }
{
    let Some((operator, literal)) = split_at_space(text) else {
        return Ok(None);
    };
    match operator_of(operator) {
        None => Ok(None),
        Some(operator) => {
            let literal = String::from_str(alloc, literal)?;
            Ok(Some(Test::Compared(operator, literal)))
        }
    }
}

#[tactic(auto, unfolding(crate::specs::ConditionText::test_of))]
fn parse_test(alloc: Global, text: &str) -> Result<Option<Test>, AllocError>
    ensures { IfOk result (λ t. option_map test_in t ≡ test_of text.now) }
{
    if text == "is null" {
        Ok(Some(Test::IsNull))
    } else if text == "is not null" {
        Ok(Some(Test::IsNotNull))
    } else {
        parse_comparison(alloc, text)
    }
}
