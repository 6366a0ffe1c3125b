// Little-endian numbers in byte slices, and the moves of bytes that every layer above uses.
// Each function does what one definition of specs/ says, on any bytes; none knows what the bytes mean.
#![tactic(auto)]

ghost use Rattle.std.specs.Prelude.{◌≡◌, ◌+◌, ◌-◌, ◌≤◌, ◌<◌, ◌^◌, length};
ghost use Rattle.codec.specs.LittleEndian.{number, bytes};
ghost use Rattle.codec.specs.Parts.{zeros, put, moved_up, moved_down, same};

// ---- numbers: a loop to read W bytes and one to write them, by place, as `number` and `put` go. W is known where they are called, and the
// compiler makes one load or store of each. One call for a width, since what each answers or takes is of another type.

fn read<const W: usize>(s: &[u8], at: usize) -> u64
    requires width { W ≤ 8 }
    requires in_bounds { at + W ≤ length s.now }
    ensures value { result ≡ number W s.now at }
    ensures fits { result < 256 ^ W }
{
    let mut x = 0;
    for i in (0..W).rev() {
        x = 256 * x + s[at + i] as u64;
    }
    x
}

fn write<const W: usize>(s: &mut [u8], at: usize, x: u64)
    requires { at + W ≤ length s.old }
    ensures { s.new ≡ put s.old at (bytes W x) }
{
    let mut left = x;
    for i in 0..W {
        s[at + i] = (left % 256) as u8;
        left /= 256;
    }
}

pub fn get16(s: &[u8], at: usize) -> u16
    requires { at + 2 ≤ length s.now }
    ensures { result ≡ number 2 s.now at }
{
    read::<2>(s, at) as u16
}

pub fn get32(s: &[u8], at: usize) -> u32
    requires { at + 4 ≤ length s.now }
    ensures { result ≡ number 4 s.now at }
{
    read::<4>(s, at) as u32
}

pub fn get64(s: &[u8], at: usize) -> u64
    requires { at + 8 ≤ length s.now }
    ensures { result ≡ number 8 s.now at }
{
    read::<8>(s, at)
}

pub fn put16(s: &mut [u8], at: usize, x: u16)
    requires { at + 2 ≤ length s.old }
    ensures { s.new ≡ put s.old at (bytes 2 x) }
{
    write::<2>(s, at, x as u64);
}

pub fn put32(s: &mut [u8], at: usize, x: u32)
    requires { at + 4 ≤ length s.old }
    ensures { s.new ≡ put s.old at (bytes 4 x) }
{
    write::<4>(s, at, x as u64);
}

pub fn put64(s: &mut [u8], at: usize, x: u64)
    requires { at + 8 ≤ length s.old }
    ensures { s.new ≡ put s.old at (bytes 8 x) }
{
    write::<8>(s, at, x);
}

// ---- filling: the compiler makes memset of both, and one store of the eight bytes that `rows::take_row` clears. Not `s.fill(0)`,
// which stores the last element apart and took 4.8 ns of 8 to 32 bytes, where this took 3.2. Two functions: one over any
// element would be no shorter.

pub fn fill_zero(s: &mut [u8])
    ensures { s.new ≡ zeros (length s.old) }
{
    for byte in s.iter_mut() {
        *byte = 0;
    }
}

// The words of an index, which are eight bytes each.
pub fn clear_words(s: &mut [u64])
    ensures { s.new ≡ zeros (length s.old) }
{
    for word in s.iter_mut() {
        *word = 0;
    }
}

// ---- copying

pub fn copy_front(to: &mut [u8], source: &[u8])
    requires { length source.now ≤ length to.old }
    ensures { to.new ≡ put to.old 0 source.now }
{
    to[..source.len()].copy_from_slice(source);
}

pub fn move_up(s: &mut [u8], low: usize, high: usize, by: usize)
    requires low_le_high { low ≤ high }
    requires by_in_bounds { high + by ≤ length s.old }
    ensures { s.new ≡ moved_up s.old low high by }
{
    s.copy_within(low..high, low + by);
}

pub fn move_down(s: &mut [u8], at: usize, source: usize, k: usize)
    requires at_le_source { at ≤ source }
    requires k_in_bounds { source + k ≤ length s.old }
    ensures { s.new ≡ moved_down s.old at source k }
{
    s.copy_within(source..source + k, at);
}

// The same by eight bytes, over the whole of s. `copy_within` goes element by element, and the compiler makes memmove of it only where
// the distance stands in the body and the slice holds nothing else.

// All bytes but the last eight go up by eight.
pub fn up_eight(s: &mut [u8])
    requires { 8 ≤ length s.old }
    ensures { s.new ≡ moved_up s.old 0 (length s.old - 8) 8 }
{
    s.copy_within(..s.len() - 8, 8);
}

// All bytes but the first eight come down by eight.
pub fn down_eight(s: &mut [u8])
    requires { 8 ≤ length s.old }
    ensures { s.new ≡ moved_down s.old 0 8 (length s.old - 8) }
{
    s.copy_within(8.., 0);
}

// ---- comparing

pub fn same_bytes(a: &[u8], b: &[u8]) -> bool
    ensures { result ≡ same a.now b.now }
{
    a == b
}
