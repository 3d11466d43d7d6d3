// Answers a comparison by the order of a number to a key.
ghost use Rattle.std.specs.Prelude.{◌≡◌, ◌<◌, ◌≤◌, ◌*◌, ◌^◌, ◌<ℤ◌, ◌≤ℤ◌, pos, MatchResult};
ghost use Rattle.query.specs.inner.Slots.{width_of};
ghost use Rattle.query.specs.inner.OrderAnswers.{bias_in, IsKey, AllStand, AreOrderAnswers};

use crate::operator::{Operator, accepts};
use arrow_schema::IntegerType;
use columns::least_negative;
use std::cmp::Ordering;

/// The answers of a comparison by the order of a number to a key. The bias is added to each number first, and moves the least one to 0.
#[derive(Clone, Copy)]
pub(crate) struct OrderAnswers {
    pub(crate) bias: u64,
    pub(crate) key: u64,
    pub(crate) below: bool,
    pub(crate) equal: bool,
    pub(crate) above: bool,
}

fn bias_of(integer: IntegerType) -> u64
    ensures { result ≡ bias_in integer }
{
    if integer.signed {
        least_negative(integer.width)
    } else {
        0
    }
}

fn unsigned(number: i128) -> u64
    requires least { pos 0 ≤ℤ number }
    requires most { number <ℤ pos (2 ^ 64) }
    ensures { pos result ≡ number }
{
    number as u64
}

// Returns the key of a literal, or how all numbers compare with it.
fn key_of(literal: i128, bias: u64, half: u64) -> Result<u64, Ordering>
    requires { half ≤ 2 ^ 63 }
    ensures { MatchResult result (IsKey literal bias (2 * half)) (AllStand literal bias (2 * half)) }
{
    let least = -i128::from(bias);
    let end = least + 2 * i128::from(half);
    if literal < least {
        return Err(Ordering::Greater);
    }
    if literal >= end {
        return Err(Ordering::Less);
    }
    Ok(unsigned(literal + i128::from(bias)))
}

impl OrderAnswers {
    /// Returns the answers of a comparison of integers with a literal.
    pub(crate) fn of(integer: IntegerType, operator: Operator, literal: i128) -> OrderAnswers
        ensures { AreOrderAnswers integer operator literal result }
    {
        let bias = bias_of(integer);
        match key_of(literal, bias, least_negative(integer.width)) {
            Ok(key) => OrderAnswers {
                bias,
                key,
                below: accepts(operator, Ordering::Less),
                equal: accepts(operator, Ordering::Equal),
                above: accepts(operator, Ordering::Greater),
            },
            Err(order) => {
                let answer = accepts(operator, order);
                OrderAnswers {
                    bias,
                    key: 0,
                    below: answer,
                    equal: answer,
                    above: answer,
                }
            }
        }
    }
}
