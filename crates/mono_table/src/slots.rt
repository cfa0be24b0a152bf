// Values by number that may be taken out and put back.
ghost use Rattle.std.specs.Prelude.{◌≡◌, ◌++◌, ◌∷◌, [], true, false, None, Some, OnOk, OnErr, IfErr, IfSome, is_some, slice_set};
ghost use Rattle.std.specs.Option.{option_copied};
ghost use Rattle.mono_model.specs.Table.{value_at};
ghost use Rattle.mono_table.specs.Slots.{lent_at, SameSlots};

use crate::ReadyTable;
use std::alloc::Global;
use std::marker::Model;

/// The content of a place that was not removed.
#[derive(Drop)]
pub enum Slot<T, W> {
    /// A value, and the note that its holder left with it.
    Kept(T, Option<W>),
    /// A place without its value, which a caller took out. The place of the next number is also in this state after
    /// `abort`.
    Lent,
}

/// Values by numbers that are given out from 0 on and never twice. A caller takes a value out (`take`), and then either
/// puts it back (`put`) or removes its place (`remove`).
///
/// The place of the next number has a value before that number is given out: it is reserved (`reserve_value`), and then
/// given out (`commit`) or taken back (`abort`).
///
/// The view has five fields. `items` lists for each number its value, or none if it is taken out or removed. `notes`
/// lists for each number the note that is kept with its value, or none. `lent` says which numbers are taken out.
/// `reserved` and `reserved_note` are the value that is reserved for the next number, and its note.
///
/// It costs as much as its table (`mono_table`): it gives a page back once all its numbers were given out and all its
/// places were removed.
#[derive(Drop)]
pub struct Slots<T, W> {
    places: ReadyTable<Slot<T, W>>,
}

impl<T, W> Model for Slots<T, W> {
    ghost use Rattle.mono_table.specs.Slots.{Seen, seen_of};

    ghost Value = { Seen T W };

    ghost view = { λ a. seen_of a.places.table a.places.reserved };
}

impl<T: Drop, W: Drop> Slots<T, W> {
    /// Creates slots that have given out no number. It takes no memory.
    pub fn new(alloc: Global) -> Slots<T, W>
        ensures { result ≡ record { items = []; notes = []; lent = []; reserved = None; reserved_note = None } }
    {
        Slots {
            places: ReadyTable::new(alloc),
        }
    }

    /// Reserves a place for the next number and puts this value into it, without a note, also if a place was ready.
    ///
    /// Refused if out of memory, or if the numbers are used up. Then nothing changes, and the value comes back.
    #[inline(always)]
    pub fn reserve_value(&mut self, alloc: Global, value: T) -> Result<(), T>
        ensures reserved { OnOk result (self.new.reserved ≡ Some value) }
        ensures note { OnOk result (self.new.reserved_note ≡ None) }
        ensures same { SameSlots self.old self.new }
        ensures back { IfErr result (λ v. v ≡ value) }
        ensures refused { OnErr result (self.new ≡ self.old) }
    {
        match self.places.reserve_value(alloc, Slot::Kept(value, None)) {
            Ok(()) => Ok(()),
            Err(Slot::Kept(value, _beside)) => Err(value),
            Err(Slot::Lent) => unreachable!(),
        }
    }

    /// Gives the next number out, with the reserved value and its note. It takes no memory.
    #[inline(always)]
    pub fn commit(&mut self)
        requires { is_some self.old.reserved ≡ true }
        ensures items { self.new.items ≡ self.old.items ++ self.old.reserved ∷ [] }
        ensures notes { self.new.notes ≡ self.old.notes ++ self.old.reserved_note ∷ [] }
        ensures lent { self.new.lent ≡ self.old.lent ++ false ∷ [] }
    {
        self.places.commit();
    }

    /// Takes back the reserved value. Its place stays ready. It takes no memory.
    #[inline(always)]
    pub fn abort(&mut self) -> T
        requires { is_some self.old.reserved ≡ true }
        ensures value { self.old.reserved ≡ Some result }
        ensures reserved { self.new.reserved ≡ None }
        ensures same { SameSlots self.old self.new }
    {
        match self.places.abort(Slot::Lent) {
            Slot::Kept(value, _beside) => value,
            Slot::Lent => unreachable!(),
        }
    }

    /// Takes out the value of a number, with the note that is kept with it. The number is taken out from now on
    /// (`lent`), if it had a value.
    #[inline(always)]
    pub fn take(&mut self, number: u64) -> (Option<T>, Option<W>)
        ensures value { result.0 ≡ value_at self.old.items number }
        ensures note { result.1 ≡ value_at self.old.notes number }
        ensures items { self.new.items ≡ slice_set self.old.items number None }
        ensures notes { self.new.notes ≡ slice_set self.old.notes number None }
        ensures lent { IfSome result.0 (λ value. lent_at self.new number ≡ true) }
    {
        if !self.places.has(number) {
            return (None, None);
        }
        match self.places.replace(number, Slot::Lent) {
            Slot::Kept(value, beside) => (Some(value), beside),
            Slot::Lent => (None, None),
        }
    }

    /// Returns the note that is kept with the value of a number, if there is one.
    pub fn note(&self, number: u64) -> Option<&W>
        ensures { option_copied result ≡ value_at self.now.notes number }
    {
        match self.places.get(number) {
            Some(Slot::Kept(_value, Some(note))) => Some(note),
            _ => None,
        }
    }

    /// Puts a value back at a number that is taken out, with a note to keep with it. It takes no memory.
    #[inline(always)]
    pub fn put(&mut self, number: u64, value: T, beside: Option<W>)
        requires { lent_at self.old number ≡ true }
        ensures items { self.new.items ≡ slice_set self.old.items number (Some value) }
        ensures notes { self.new.notes ≡ slice_set self.old.notes number beside }
        ensures lent { self.new.lent ≡ slice_set self.old.lent number false }
    {
        drop(self.places.replace(number, Slot::Kept(value, beside)));
    }

    /// Removes a number that is taken out. It takes no memory. It gives back the memory of a page in which no place is
    /// left and no further number is given out.
    #[inline(always)]
    pub fn remove(&mut self, number: u64)
        requires { lent_at self.old number ≡ true }
        ensures items { self.new.items ≡ self.old.items }
        ensures notes { self.new.notes ≡ self.old.notes }
        ensures lent { self.new.lent ≡ slice_set self.old.lent number false }
    {
        self.places.remove(number);
    }
}
