// The sixteen payload sizes of CAN FD, and the one that a fill takes.
ghost use Rattle.std.specs.Prelude.{◌≡◌, find, nat_le};
ghost use Rattle.shelf.specs.Smallest.{Smallest};
ghost use Rattle.frames.specs.Payloads.{Fits};

const PAYLOADS: [u8; 16] = [0, 1, 2, 3, 4, 5, 6, 7, 8, 12, 16, 20, 24, 32, 48, 64];

// The first of some sizes that is not below the fill.
fn first_fit(sizes: &[u8], fill: u8) -> Option<u8>
    ensures { result ≡ find (λ s. nat_le fill s) sizes.now }
{
    sizes.iter().copied().find(|size| fill <= *size)
}

// The smallest payload size that is not below the fill; none where the fill exceeds them all.
pub fn payload_of(fill: u8) -> Option<u8>
    ensures { Smallest (Fits fill) 0 64 result }
{
    first_fit(&PAYLOADS, fill)
}
