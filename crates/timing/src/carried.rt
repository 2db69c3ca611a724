// Which domain carries a frame, and when a frame is in time there.
ghost use Rattle.std.specs.Prelude.{◌≡◌};
ghost use Rattle.timing.specs.Carried.{in_set, timely};

// Domain k carries the frames whose set has bit k.
pub fn carries(k: usize, set: u8) -> bool
    ensures { result ≡ in_set k set }
{
    k < 8 && (set >> k) % 2 == 1
}

// An answer is in time when it is a time that is not above the deadline.
pub fn in_time(answer: Option<u64>, deadline: u64) -> bool
    ensures { result ≡ timely answer deadline }
{
    answer.is_some_and(|time| time <= deadline)
}
