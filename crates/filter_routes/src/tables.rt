// The tables of many filters.
ghost use Rattle.std.specs.Prelude.{◌≡◌, ◌↔◌, ◌<◌, ◌^◌, ◌∷◌, [], ℕ, List, length, nat_eq};
ghost use Rattle.std.specs.Prelude.{slice_get, ◌++◌, IsTrue};
ghost use Rattle.std.specs.Prelude.{IfOk, IfErr, IfSome, IfNone, OnOk, OnErr};
ghost use Rattle.std.proofs.Common.{rules};
ghost use Rattle.std.specs.Cmp.{partial_equiv_from_equiv};
ghost use Rattle.std.specs.Cmp.Lexicographic.{pointwise, nat_list_eq_equiv};
ghost use Rattle.std.specs.Cmp.Rules.{hashing};
ghost use Rattle.std.specs.Option.{option_copied};
ghost use Rattle.filter_text.specs.Filters.{pieces};
ghost use Rattle.filter_text.specs.Printing.{printed};
ghost use Rattle.filter_text.specs.Shapes.{shape};

use crate::RouteFault;
use crate::search::fault_of;
use crate::table::Table;
use filter_text::{Filter, print, same};
use indexmap::IndexMap;
use std::alloc::{AllocError, Global};
use std::hash::{Hash, Hasher};
use std::marker::Model;

// The canonical text of a filter.
#[derive(Debug, Drop)]
struct Text {
    bytes: Vec<u8>,
}

impl Model for Text {
    ghost Value = { List ℕ };

    ghost view = { λ t. t.bytes.items };
}

impl PartialEq for Text {
    ghost eq = { pointwise nat_eq };

    ghost laws = { partial_equiv_from_equiv nat_list_eq_equiv };

    fn eq(&self, other: &Text) -> bool {
        self.bytes.as_slice() == other.bytes.as_slice()
    }
}

impl Eq for Text {
    ghost laws = { nat_list_eq_equiv };
}

impl Hash for Text {
    ghost hash_input = { λ t. t ∷ [] };

    ghost respects_eq = { Prim.search (hashing, rules) };

    fn hash<H: Hasher>(&self, state: &mut H) {
        state.write(self.bytes.as_slice());
    }
}

/// The tables of many filters, no two of one filter. A table's number is how many came before it.
#[derive(Drop)]
pub struct Tables {
    alloc: Global,
    tables: Vec<Table>,
    // The number of a table with this canonical text. Filters of the language with one text are one filter.
    numbers: IndexMap<Text, usize>,
}

impl Model for Tables {
    ghost use Rattle.std.specs.Coded.{codes};
    ghost use Rattle.std.specs.Prelude.{List};
    ghost use Rattle.filter_text.specs.contracts.filter.Filter as filters;
    ghost use Rattle.filter_routes.specs.TableValues.{Table as TableValue};
    ghost use Rattle.filter_routes.specs.Interned.{IsStored};

    ghost Value = { List TableValue };

    ghost coded = { Prim.hlevel (codes, filters.the_row.coded) };

    ghost view = { λ t. t.tables.items };

    ghost invariant = { λ t. IsStored t.tables.items t.numbers.entries };
}

impl Tables {
    ghost use Rattle.filter_routes.specs.Interned.{AreDistinct, HasNone, Interns, NumberOf};
    ghost use Rattle.filter_routes.specs.RouteFaults.{IsRouteFault};
    ghost use Rattle.filter_routes.specs.Soundness.{IsSound};
    ghost use Rattle.filter_routes.specs.Tables.{IsTableOf};

    /// No tables; those that come take their memory from `alloc`.
    pub fn new(alloc: Global) -> Tables
        ensures { result ≡ [] }
    {
        Tables {
            alloc,
            tables: Vec::new(alloc),
            numbers: IndexMap::new(alloc),
        }
    }

    /// How many tables there are.
    pub fn len(&self) -> usize
        ensures len { result ≡ length self.now }
        ensures distinct { AreDistinct self.now }
    {
        self.tables.as_slice().len()
    }

    pub fn is_empty(&self) -> bool
        ensures { IsTrue result ↔ (length self.now ≡ 0) }
    {
        self.len() == 0
    }

    /// The table with that number.
    pub fn get(&self, number: usize) -> Option<&Table>
        ensures { option_copied result ≡ slice_get self.now number }
    {
        self.tables.get(number)
    }

    /// The number of the filter's table, which is made where there is none yet.
    pub fn intern(&mut self, filter: &Filter) -> Result<usize, RouteFault>
        requires { pieces (shape filter.now) < 2 ^ 32 }
        ensures number { IfOk result (Interns self.old self.new (shape filter.now)) }
        ensures fault { IfErr result (IsRouteFault (shape filter.now)) }
        ensures err { OnErr result (self.new ≡ self.old) }
    {
        match self.intern_if_sound(filter)? {
            None => Err(fault_of(self.alloc, filter)),
            Some(number) => Ok(number),
        }
    }

    /// The number of the filter's table, which is made where there is none yet; None where the filter isn't sound.
    /// Where its fault lies isn't looked for.
    pub fn intern_if_sound(&mut self, filter: &Filter) -> Result<Option<usize>, AllocError>
        ensures number { IfOk result (λ o. IfSome o (Interns self.old self.new (shape filter.now))) }
        ensures sound { IfOk result (λ o. IfSome o (λ _. IsSound (shape filter.now))) }
        ensures unsound { IfOk result (λ o. IfNone o ((IsSound (shape filter.now) → ⊥)
            × (self.new ≡ self.old))) }
        ensures err { OnErr result (self.new ≡ self.old) }
    {
        let alloc = self.alloc;
        let text = Text {
            bytes: print(alloc, filter)?,
        };
        if let Some(number) = self.number_of(&text, filter) {
            return Ok(Some(number));
        }
        match Table::if_sound(alloc, filter)? {
            None => Ok(None),
            Some(table) => Ok(Some(self.add(text, table)?)),
        }
    }

    // The number of the filter's table. The text is the filter's.
    fn number_of(&self, text: &Text, filter: &Filter) -> Option<usize>
        requires { text.now ≡ printed (shape filter.now) }
        ensures number { NumberOf self.now (shape filter.now) result }
        ensures sound { IfSome result (λ _. IsSound (shape filter.now)) }
    {
        match self.numbers.get(text) {
            None => None,
            Some(number) => {
                if same(self.tables[*number].filter(), filter) {
                    return Some(*number);
                }
                self.find(filter)
            }
        }
    }

    // The number of the filter's table, by a look at each.
    fn find(&self, filter: &Filter) -> Option<usize>
        ensures number { NumberOf self.now (shape filter.now) result }
        ensures sound { IfSome result (λ _. IsSound (shape filter.now)) }
    {
        for i in 0..self.tables.as_slice().len() {
            if same(self.tables[i].filter(), filter) {
                return Some(i);
            }
        }
        None
    }

    // The number of a table that comes behind the others. The text is that of its filter, which no other has.
    fn add(&mut self, text: Text, table: Table) -> Result<usize, AllocError>
        requires text { text ≡ printed (shape table.filter) }
        requires fresh { HasNone self.old (shape table.filter) }
        ensures number { IfOk result (λ n. n ≡ length self.old) }
        ensures ok { OnOk result (self.new ≡ self.old ++ table ∷ []) }
        ensures err { OnErr result (self.new ≡ self.old) }
    {
        let number = self.tables.as_slice().len();
        self.tables.reserve(1)?;
        self.numbers.insert(text, number)?;
        self.tables.push(table).unwrap();
        Ok(number)
    }
}
