// Reading and writing numbers of seven-bit groups.
ghost use Rattle.std.specs.Prelude.{◌≡◌, ◌+◌, ◌<◌, ◌≤◌, true, length, IfOk};
ghost use Rattle.varint.specs.Writings.{writing};
ghost use Rattle.varint.specs.Readings.{scanned, number_at, WritingAt};
ghost use Rattle.varint.specs.Written.{Written, Wrote, ReadBack};

// Why no number can be read, with the place.
#[derive(Clone, Copy, PartialEq, Eq, Debug)]
pub enum Fault {
    // What begins at the place is no number: it begins with a later group, is not the shortest or is past 32 bits.
    Malformed(usize),
    // The bytes end at the place.
    Ended(usize),
}

// The buffer has no room for a number.
#[derive(Clone, Copy, PartialEq, Eq, Debug)]
pub struct NoRoom;

// A number as it stands in bytes, in any writing of at most five groups.
#[derive(Clone, Copy, PartialEq, Eq, Debug)]
struct Reading {
    value: u32,
    end: usize,
    // a question answered beside the value, which stands either way: an enum of two would be matched where this is tested
    shortest: bool,
}

const MOST_GROUPS: usize = 5;

// A value above this has no room for one group more in 32 bits.
const MOST_BEFORE: u32 = 33_554_431;

// The number that begins at a place, its end, and whether its writing is the shortest: which writings to take is the caller's choice.
// By an index, which stops at the sixth group, however many follow: by iterators over the groups, tried in three forms, short numbers took 1.5 to 2.2 times as long.
fn scan(bytes: &[u8], at: usize) -> Result<Reading, Fault>
    ensures answer { result ≡ scanned bytes.now at }
    ensures writing { IfOk result (λ n. (n.shortest ≡ true → WritingAt bytes.now at n.value n.end)) }
{
    if at >= bytes.len() {
        return Err(Fault::Ended(bytes.len()));
    }
    let first = bytes[at];
    if first >= 128 {
        return Err(Fault::Malformed(at));
    }
    let mut value = u32::from(first);
    let mut end = at + 1;
    while end < bytes.len() && bytes[end] >= 128 {
        if end - at >= MOST_GROUPS || value > MOST_BEFORE {
            return Err(Fault::Malformed(at));
        }
        value = value * 128 + u32::from(bytes[end] - 128);
        end += 1;
    }
    let shortest = end - at == 1 || first > 0;
    Ok(Reading {
        value,
        end,
        shortest,
    })
}

// The number that begins at a place, and the place after it. Only its shortest writing is a number.
// No cursor over the bytes: where it stands after a fault would be one clause more, and each reader would have to set it back.
pub fn read(bytes: &[u8], at: usize) -> Result<(u32, usize), Fault>
    ensures answer { result ≡ number_at bytes.now at }
    ensures writing { IfOk result (λ p. WritingAt bytes.now at p.0 p.1) }
{
    let number = scan(bytes, at)?;
    if !number.shortest {
        return Err(Fault::Malformed(at));
    }
    Ok((number.value, number.end))
}

// How many bytes a number takes.
#[tactic(auto, using(crate::proofs::Writings::sizes))]
pub fn size(n: u32) -> usize
    ensures { (result ≡ length (writing n)) × (result ≤ 5) }
{
    match n {
        0..128 => 1,
        128..16_384 => 2,
        16_384..2_097_152 => 3,
        2_097_152..268_435_456 => 4,
        268_435_456.. => 5,
    }
}

// Writes a number from a place on, and answers the place after it.
#[tactic(auto, using(crate::proofs::Writings::puts, crate::proofs::Readings::written_read_back))]
fn put(bytes: &mut [u8], at: usize, n: u32) -> usize
    requires { at + length (writing n) ≤ length bytes.old }
    ensures written { Written bytes.old at (writing n) result bytes.new }
    ensures back { ReadBack bytes.new at n result }
{
    if n < 128 {
        bytes[at] = n as u8;
        at + 1
    } else {
        let last = put(bytes, at, n / 128);
        bytes[last] = (128 + n % 128) as u8;
        last + 1
    }
}

// Writes a number from a place on, and answers the place after it; where it does not fit, nothing is written.
// No cursor here either: a refused write would have to leave it where it stood.
pub fn write(bytes: &mut [u8], at: usize, n: u32) -> Result<usize, NoRoom>
    ensures answer { Wrote bytes.old at (writing n) result bytes.new }
    ensures back { IfOk result (λ end. ReadBack bytes.new at n end) }
{
    let room = bytes.len();
    if at > room || room - at < size(n) {
        return Err(NoRoom);
    }
    Ok(put(bytes, at, n))
}

#[cfg(test)]
mod tests {
    use super::*;

    #[test]
    fn numbers_are_written_and_read(rt: HostRuntime) {
        let table: [(u32, &[u8]); 8] = [
            (0, &[0]),
            (127, &[127]),
            (128, &[1, 128]),
            (300, &[2, 172]),
            (16_384, &[1, 128, 128]),
            (2_097_152, &[1, 128, 128, 128]),
            (268_435_456, &[1, 128, 128, 128, 128]),
            (4_294_967_295, &[15, 255, 255, 255, 255]),
        ];
        for (n, bytes) in table {
            let mut buffer = [7u8; 8];
            assert_eq!(rt; write(&mut buffer, 1, n), Ok(1 + bytes.len()));
            assert!(rt; buffer[1..].starts_with(bytes));
            assert_eq!(rt; read(bytes, 0), Ok((n, bytes.len())));
        }
    }

    #[test]
    fn other_bytes_are_no_numbers(rt: HostRuntime) {
        assert_eq!(rt; read(&[0, 172], 0), Err(Fault::Malformed(0)));
        assert_eq!(rt;
            read(&[5, 16, 128, 128, 128, 128], 1),
            Err(Fault::Malformed(1))
        );
        assert_eq!(rt;
            read(&[1, 128, 128, 128, 128, 128], 0),
            Err(Fault::Malformed(0))
        );
        assert_eq!(rt; read(&[172, 0], 0), Err(Fault::Malformed(0)));
        assert_eq!(rt; read(&[5], 1), Err(Fault::Ended(1)));
    }
}
