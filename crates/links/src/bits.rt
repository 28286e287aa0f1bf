// The bits of a byte, by masks: bit l has the weight 2 to the power l.
ghost use Rattle.std.specs.Prelude.{◌<◌, ◌≡◌};
ghost use Rattle.links.specs.Table.{bit, with_bit};

// The weights of a byte's bits. A table: of a shifted 1 the compiler makes a shift of each byte that a loop looks at, which takes
// a tenth more time.
const WEIGHTS: [u8; 8] = [1, 2, 4, 8, 16, 32, 64, 128];

// Whether the bit of a level is set. A byte has none of level 8 or more.
pub(crate) fn has_bit(byte: u8, level: usize) -> bool
    ensures { result ≡ bit level byte }
{
    level < 8 && byte & WEIGHTS[level] != 0
}

// A byte with the bit of a level set where the link is failed, and reset where it is not.
pub(crate) fn put_bit(byte: u8, level: usize, failed: bool) -> u8
    requires { level < 8 }
    ensures { result ≡ with_bit failed level byte }
{
    if failed {
        return byte | 1 << level;
    }
    byte & !(1 << level)
}
