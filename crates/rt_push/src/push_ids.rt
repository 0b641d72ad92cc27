// The source of push ids.
ghost use Rattle.std.specs.Prelude.{◌≡◌, ◌≤◌, ◌<◌, ◌^◌, ℕ, Option, Some, None, IfOk, OnOk, OnErr, IsTrue};
ghost use Rattle.std.specs.Prelude.{length};
ghost use Rattle.std.specs.Result.{result_err};
ghost use Rattle.std.specs.Str.{IsUtf8};
ghost use Rattle.std.specs.List.{list_all};
ghost use Rattle.rt_push.specs.Digits.{number, digit_byte, is_digit, text};
ghost use Rattle.rt_push.specs.PushIds.{Stamp, push_fault, push_id, used};
ghost use Rattle.rt_push.specs.laws.Examples.{EarlierCountsUp, FirstCauseCounts, IdsAsWritten};
ghost use Rattle.rt_push.specs.laws.Ids.{DigitsStand, IdsRise};

use crate::error::PushError;
use std::marker::Model;

/// The moments that eight digits write, and so the first that they do not.
const MOMENTS: u64 = 1 << 48;

/// The random parts that twelve digits write.
const RANDOM_PARTS: u128 = 1 << 72;

// What an id is made of: its moment, in milliseconds since 1970, and its random part, the number
// that twelve digits write.
#[derive(Clone, Copy, Debug)]
struct Stamp {
    moment: u64,
    random: u128,
}

impl Stamp {
    fn id(&self) -> [u8; 20]
        ensures { result ≡ push_id (self.now.moment, self.now.random) }
    {
        let mut id = [0; 20];
        write(&mut id[..8], u128::from(self.moment));
        write(&mut id[8..], self.random);
        id
    }
}

/// Makes push ids, each above the ones that it made before.
#[derive(Debug, Drop)]
pub struct PushIds {
    last: Option<Stamp>,
}

impl Model for PushIds {
    ghost use Rattle.std.specs.Prelude.{◌<◌, ◌^◌, Option, IfSome};
    ghost use Rattle.std.specs.Option.{option_map};
    ghost use Rattle.rt_push.specs.PushIds.{Stamp};

    ghost Value = { Option Stamp };

    ghost view = { λ ids. option_map (λ last. (last.moment, last.random)) ids.last };

    ghost invariant = { λ ids. IfSome ids.last (λ last. (last.moment < 2 ^ 48)
        × (last.random < 64 ^ 12)) };
}

impl PushIds {
    /// A source that has given no id yet.
    pub fn new() -> PushIds
        ensures { result ≡ None }
    {
        PushIds { last: None }
    }

    // What an id of this moment and random part is made of.
    fn stamp(&self, now_ms: u64, random: u128) -> Stamp
        requires { random < 64 ^ 12 }
        ensures { (result.moment, result.random) ≡ used self.now now_ms random }
    {
        match self.last {
            Some(last) if now_ms <= last.moment => Stamp {
                moment: last.moment,
                random: last.random + 1,
            },
            _ => Stamp {
                moment: now_ms,
                random,
            },
        }
    }

    /// The next id, for the moment now in milliseconds since 1970 and twelve random digits, each
    /// from 0 to 63.
    ///
    /// An id is 8 characters of its moment and 12 of its random part, in base 64, most significant
    /// first. In the moment last used the last random part is counted up by one, as a number; an
    /// earlier moment counts as the last one used.
    ///
    /// # Errors
    ///
    /// `MomentTooLarge` from 2^48 on, then `RandomOutOfRange` where one of the twelve is 64 or
    /// more, then `Exhausted` where the random part cannot be counted up. A refusal changes
    /// nothing.
    pub fn next(&mut self, now_ms: u64, random: [u8; 12]) -> Result<[u8; 20], PushError>
        ensures fault { result_err result ≡ push_fault self.old now_ms random }
        ensures id { IfOk result (λ id. id ≡ push_id (used self.old now_ms (number random))) }
        ensures text { IfOk result IsUtf8 }
        ensures used { OnOk result (self.new ≡ Some (used self.old now_ms (number random))) }
        ensures unchanged { OnErr result (self.new ≡ self.old) }
    {
        if now_ms >= MOMENTS {
            return Err(PushError::MomentTooLarge);
        }
        if !all_digits(&random) {
            return Err(PushError::RandomOutOfRange);
        }
        let stamp = self.stamp(now_ms, number(&random));
        if stamp.random >= RANDOM_PARTS {
            return Err(PushError::Exhausted);
        }
        self.last = Some(stamp);
        Ok(stamp.id())
    }
}

/// A source that has given no id yet.
impl Default for PushIds {
    ghost is_default = { λ ids. ids ≡ None };

    fn default() -> PushIds {
        PushIds::new()
    }
}

// ---- numbers in base 64

const DIGITS: [u8; 64] = *b"-0123456789ABCDEFGHIJKLMNOPQRSTUVWXYZ_abcdefghijklmnopqrstuvwxyz";

// Whether each of these is a digit's value.
pub fn all_digits(digits: &[u8; 12]) -> bool
    ensures { result ≡ list_all is_digit digits.now }
{
    digits.iter().all(|digit| *digit < 64)
}

// The number that twelve digits write.
pub fn number(digits: &[u8; 12]) -> u128
    requires { IsTrue (list_all is_digit digits.now) }
    ensures number { result ≡ number digits.now }
    ensures below { result < 64 ^ 12 }
{
    let mut number: u128 = 0;
    for digit in digits {
        number = 64 * number + u128::from(*digit);
    }
    number
}

// The byte of a digit of this value.
fn digit_byte(value: u8) -> u8
    requires { value < 64 }
    ensures { result ≡ digit_byte value }
{
    DIGITS[usize::from(value)]
}

// Writes a number with as many digits as there is room for.
pub fn write(room: &mut [u8], number: u128)
    ensures { room.new ≡ text (length room.old) number }
{
    let mut rest = number;
    let mut place = room.len();
    while place > 0 {
        place -= 1;
        room[place] = digit_byte((rest % 64) as u8);
        rest /= 64;
    }
}

// ---- what holds of all push ids

/// Whatever calls one `PushIds` gets, each id that it gives is above those before it, by bytes.
pub fn ids_rise()
    ensures { IdsRise }
{}

/// The number that digits write has just these digits, so a random part that is not counted up
/// stands in its id as given.
pub fn digits_stand()
    ensures { DigitsStand }
{}

/// Ids, and what they are made of, that the prover computes.
pub fn examples()
    ensures written { IdsAsWritten }
    ensures earlier { EarlierCountsUp }
    ensures causes { FirstCauseCounts }
{}
