// The list of object rows that the caller lends: one row copied or stored, whether all are sound, and all made dead.
#![tactic(auto)]

ghost use Rattle.std.specs.Prelude.{◌≡◌, length, get_or, set, replicate};
ghost use Rattle.object.specs.Row.{dead};
ghost use Rattle.tables.specs.Tables.{sound_objects};

use object::{Object, SLOTS};

// A copy of row i, and of the dead row past the end.
pub fn row_at(objects: &[Object], i: usize) -> Object
    ensures { result ≡ get_or objects.now i dead }
{
    objects.get(i).copied().unwrap_or(object::dead())
}

// Stores a row at i, and past the end nothing.
pub fn put_row(objects: &mut [Object], i: usize, row: Object)
    ensures { objects.new ≡ set objects.old i row }
{
    lent_rows::put_row(objects, i, row);
}

// Whether the list has 64 records and each is sound; the first that is not ends the check.
pub fn rows_sound(objects: &[Object]) -> bool
    ensures { result ≡ sound_objects objects.now }
{
    if objects.len() != SLOTS {
        return false;
    }
    objects.iter().all(|row| object::sound(*row))
}

// Makes every row dead.
pub fn fresh_rows(objects: &mut [Object])
    ensures { objects.new ≡ replicate (length objects.old) dead }
{
    objects.fill(object::dead());
}
