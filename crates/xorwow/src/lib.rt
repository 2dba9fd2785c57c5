// Marsaglia's xorwow: the numbers that follow a state, written to a buffer.
#![tactic(auto)]

ghost use Rattle.std.specs.Prelude.{◌≡◌, ◌*◌, ◌≤◌, length};
ghost use Rattle.words.specs.Words.{word_bytes};
ghost use Rattle.words.specs.Writes.{front};
ghost use Rattle.xorwow.specs.Xorwow.{mixed, newest, step, output, stream, after};

// The five words of the register, the oldest first, and the counter.
#[derive(Clone, Copy)]
pub struct Xorwow {
    pub x: u32,
    pub y: u32,
    pub z: u32,
    pub w: u32,
    pub v: u32,
    pub counter: u32,
}

fn mix(x: u32) -> u32
    ensures { result ≡ mixed x }
{
    x ^ (x >> 2)
}

fn join(v: u32, t: u32) -> u32
    ensures { result ≡ newest v t }
{
    (v ^ (v << 4)) ^ (t ^ (t << 1))
}

impl Xorwow {
    // The state after one step.
    fn next(self) -> Xorwow
        ensures { result ≡ step self }
    {
        Xorwow {
            x: self.y,
            y: self.z,
            z: self.w,
            w: self.v,
            v: join(self.v, mix(self.x)),
            counter: self.counter.wrapping_add(362437),
        }
    }

    // The number that a step gives, of the counter and the newest word that it leaves.
    fn output(self) -> u32
        ensures { result ≡ output self }
    {
        self.counter.wrapping_add(self.v)
    }
}

// Writes the next k numbers and answers the state after them. The count goes beside the buffer: it is of numbers, where a slice's length is of bytes, and each
// run writes over the first of one buffer that the caller lends to all.
pub fn fill(g: Xorwow, numbers: &mut [u8], k: usize) -> Xorwow
    requires { 4 * k ≤ length numbers.old }
    ensures { (result ≡ after k g) × (numbers.new ≡ front (word_bytes (stream k g)) numbers.old) }
{
    let mut at = g;
    for i in 0..k {
        at = at.next();
        words::write_word(numbers, i, at.output());
    }
    at
}
