// A catalogue while it is read: the lent areas that its items are entered into (`Draft`), and what it is to have entered an item, or to have
// refused it (`Entered`). The crates that enter items are over it; all that reads a catalogue needs `Kept`.
#![tactic(auto)]

ghost use Rattle.std.specs.Prelude.{◌≡◌};
ghost use Rattle.tables.specs.Views.{tables_mut_of};
ghost use Rattle.unions.specs.Views.{rows_in_mut};
ghost use Rattle.conditions.specs.Sizes.{Sized};
ghost use Rattle.conditions.specs.Props.{sized_prop};
ghost use Rattle.kept.specs.Kept.{Given};
ghost use Rattle.kept.specs.Vacancies.{Vacant, knows_none, in_flags, noted};

use marks::MarksMut;
use tables::{Flag, TablesMut, has_bit};
use unions::MembersMut;

// Is the flag set in the flags of a record?
pub fn has_flag(flags: u8, flag: Flag) -> bool
    ensures { result ≡ in_flags flag flags }
{
    has_bit(u16::from(flags), flag.power())
}

// What is known of the parts of a name: none of them is locked, and none is favoured.
#[derive(Clone, Copy)]
pub struct Vacancy {
    pub locked: bool,
    pub favoured: bool,
}

impl Vacancy {
    // Is it known that no part of the name has the flag?
    pub fn is_of(self, flag: Flag) -> bool
        ensures { result ≡ knows_none self flag }
    {
        match flag {
            Flag::Locked => self.locked,
            Flag::Favoured => self.favoured,
            _ => false,
        }
    }

    // A part more, which has these flags.
    pub fn note(&mut self, flags: u8)
        ensures { self.new ≡ noted flags self.old }
    {
        if has_flag(flags, Flag::Locked) {
            self.locked = false;
        }
        if has_flag(flags, Flag::Favoured) {
            self.favoured = false;
        }
    }
}

// The members of unions are counted where they are written: the number that `tables` has of them stays as it was.
#[derive(Drop)]
pub struct Draft<'d, 'a> {
    pub marks: &'d mut MarksMut<'a>,
    pub members: &'d mut MembersMut<'a>,
    pub tables: &'d mut TablesMut<'a>,
    // Of each name.
    pub vacancies: &'d mut [Vacancy; 64],
    pub ghost given: { Given tables.now.counts.unions (rows_in_mut members.now) },
    pub ghost sized: { Sized (tables_mut_of tables.now) } by { sized_prop (tables_mut_of tables.now) },
    pub ghost vacant: { Vacant vacancies.now (tables_mut_of tables.now).parts },
}
