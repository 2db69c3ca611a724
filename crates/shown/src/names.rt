// The names of a bank's domains, by their numbers.
ghost use Rattle.std.specs.Prelude.{◌≡◌, ◌<◌, ◌≤◌, codes, length, slice_get, Some};

pub fn name_of(names: &[&'static str], k: usize) -> &'static str
    ensures known { k < length names.now → slice_get names.now k ≡ Some result }
    ensures unknown { length names.now ≤ k → result.now ≡ codes "unknown" }
{
    names.get(k).copied().unwrap_or("unknown")
}
