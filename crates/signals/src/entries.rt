// What a list of entries says of a name and of a frame.
ghost use Rattle.std.specs.Prelude.{◌≡◌};
ghost use Rattle.signals.specs.Riders.{any_in};
ghost use Rattle.signals.specs.Names.{place_of};

use crate::signal::Entry;

// The place of the signal that has the name, the first one where several do.
pub fn find(entries: &[Entry], name: u16) -> Option<usize>
    ensures { result ≡ place_of name 0 entries.now }
{
    entries.iter().position(|entry| entry.signal.name == name)
}

// Whether some signal rides in frame n.
pub fn has_rider(entries: &[Entry], n: usize) -> bool
    ensures { result ≡ any_in n entries.now }
{
    entries.iter().any(|entry| entry.frame == n)
}
