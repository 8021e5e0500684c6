// Numbers as calls take and give them: counted from 1 or from 0, and never large.
ghost use Rattle.std.specs.Prelude.{◌≡◌, ◌<◌, ◌^◌};
ghost use Rattle.std.specs.Option.{option_copied};
ghost use Rattle.cd_types.specs.Numbering.{numbered};

use cd_elem::Items;

/// A count as calls give it. A script that has a type has no more than 256 statements, and no more than 128 sites.
pub fn counted(count: usize) -> u32
    ensures { count < 2 ^ 32 → result ≡ count }
{
    u32::try_from(count).unwrap_or(u32::MAX)
}

/// The member with this number, counted from 1.
pub fn numbered<T>(items: &Items<T>, number: u32) -> Option<&T>
    ensures { option_copied result ≡ numbered items.now number }
{
    match number.checked_sub(1) {
        Some(place) => items.get(place as usize),
        None => None,
    }
}
