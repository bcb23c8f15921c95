// Reading the fields of an item, one behind another.
ghost use Rattle.std.specs.Prelude.{◌≡◌, ◌≤◌, Ok, Err, MatchResult, length};
ghost use Rattle.state_items.specs.Fields.{ended, field, number};
ghost use Rattle.state_items.specs.Stops.{IsStop, spot_at};

use crate::ItemFault;
use std::marker::Model;

/// What is still to be read of an item, and its place.
#[derive(Drop)]
pub(crate) struct Cursor<'a> {
    at: usize,
    rest: &'a [u8],
}

impl<'a> Model for Cursor<'a> {
    ghost use Rattle.std.specs.Prelude.{◌+◌, ◌<◌, ◌^◌, length};
    ghost use Rattle.state_items.specs.Fields.{Spot};

    ghost Value = { Spot };

    ghost view = { λ c. record { at = c.at; rest = c.rest.now } };

    ghost invariant = { λ c. c.at + length c.rest.now < 2 ^ 64 };
}

impl<'a> Cursor<'a> {
    /// A cursor at a place of an item.
    pub(crate) fn new(item: &'a [u8], at: usize) -> Cursor<'a>
        requires { at ≤ length item.now }
        ensures { result ≡ spot_at at item.now }
    {
        Cursor {
            at,
            rest: &item[at..],
        }
    }

    /// The place of the next byte.
    pub(crate) fn at(&self) -> usize
        ensures { result ≡ self.now.at }
    {
        self.at
    }

    /// A field of so many bytes.
    pub(crate) fn field(&mut self, n: usize) -> Result<&'a [u8], ItemFault>
        ensures { MatchResult result
            (λ bytes. field n self.old ≡ Ok (bytes.now, self.new))
            (λ stop. IsStop stop (field n self.old)) }
    {
        if n > self.rest.len() {
            return Err(ItemFault::Broken { at: self.at as u64 });
        }
        let bytes = &self.rest[..n];
        self.rest = &self.rest[n..];
        self.at += n;
        Ok(bytes)
    }

    /// A number of one byte.
    pub(crate) fn byte(&mut self) -> Result<u8, ItemFault>
        ensures { MatchResult result
            (λ x. number 1 self.old ≡ Ok (x, self.new))
            (λ stop. IsStop stop (number 1 self.old)) }
    {
        match self.field(1)? {
            [a] => Ok(*a),
            _ => unreachable!(),
        }
    }

    /// A number of two bytes, the high byte first.
    pub(crate) fn two_bytes(&mut self) -> Result<u16, ItemFault>
        ensures { MatchResult result
            (λ x. number 2 self.old ≡ Ok (x, self.new))
            (λ stop. IsStop stop (number 2 self.old)) }
    {
        match self.field(2)? {
            [a, b] => Ok(*a as u16 * 256 + *b as u16),
            _ => unreachable!(),
        }
    }

    /// A number of four bytes, the high byte first.
    pub(crate) fn four_bytes(&mut self) -> Result<u32, ItemFault>
        ensures { MatchResult result
            (λ x. number 4 self.old ≡ Ok (x, self.new))
            (λ stop. IsStop stop (number 4 self.old)) }
    {
        match self.field(4)? {
            [a, b, c, d] => Ok(((*a as u32 * 256 + *b as u32) * 256 + *c as u32) * 256 + *d as u32),
            _ => unreachable!(),
        }
    }

    /// The end of the item: broken where a byte follows.
    pub(crate) fn ended(&self) -> Result<(), ItemFault>
        ensures { MatchResult result
            (λ _. ended self.now ≡ Ok tt)
            (λ stop. IsStop stop (ended self.now)) }
    {
        match self.rest {
            [] => Ok(()),
            [_, ..] => Err(ItemFault::Broken { at: self.at as u64 }),
        }
    }
}
