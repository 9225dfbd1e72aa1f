// A reader's bytes into a lent area. Where the bytes of the reader are known, the contracts say which ones came.
#![tactic(auto)]

ghost use Rattle.std.specs.Prelude.{◌≡◌, ◌+◌, ◌<◌, ◌≤◌, IfOk, IfSome, OnOk, MatchResult, List, [], length, take, drop};
ghost use Rattle.std.specs.Io.KnownBytes.{Consumes, IsAtEnd};

use std::io;
use std::io::Read;

// A read failed, after so many bytes.
#[derive(Drop)]
pub struct Failed {
    pub length: usize,
}

// One read into the area, from `at` on: how many bytes came, 0 at the input's end.
fn read_behind<R: Read>(reader: &mut R, area: &mut [u8], at: usize) -> io::Result<usize>
    requires { at ≤ length area.old }
    ensures within { IfOk result (λ n. at + n ≤ length area.old) }
    ensures front { take at area.new ≡ take at area.old }
    ensures bytes { MatchResult result
        (λ n. Consumes (R.remaining reader.old) (R.remaining reader.new) (take n (drop at area.new)))
        (λ _. Consumes (R.remaining reader.old) (R.remaining reader.new) []) }
    ensures end { IfOk result (λ n. n ≡ 0 → at < length area.old → IsAtEnd (R.remaining reader.new)) }
{
    reader.read(&mut area[at..])
}

// Reads until the area is full, the input ends or a read fails; how many bytes came.
pub fn fill<R: Read>(reader: &mut R, area: &mut [u8]) -> Result<usize, Failed>
    ensures within { MatchResult result (λ n. n ≤ length area.new) (λ e. e.length ≤ length area.new) }
    ensures bytes { MatchResult result
        (λ n. Consumes (R.remaining reader.old) (R.remaining reader.new) (take n area.new))
        (λ e. Consumes (R.remaining reader.old) (R.remaining reader.new) (take e.length area.new)) }
    ensures end { IfOk result (λ n. n < length area.new → IsAtEnd (R.remaining reader.new)) }
{
    let mut at = 0;
    while at < area.len() {
        match read_behind(reader, area, at) {
            Ok(0) => return Ok(at),
            Ok(length) => at += length,
            Err(_) => return Err(Failed { length: at }),
        }
    }
    Ok(at)
}

// Reads what is left of the input. Nothing says that the input ends, so the loop's turns are counted, up to a number that no run uses up.
fn pass_rest<R: Read>(reader: &mut R) -> Result<(), Failed>
    ensures end { OnOk result (IsAtEnd (R.remaining reader.new)) }
{
    let mut space = [0u8; 4096];
    for _ in 0..u64::MAX {
        match reader.read(&mut space) {
            Ok(0) => return Ok(()),
            Ok(_) => {}
            Err(_) => break,
        }
    }
    Err(Failed { length: 0 })
}

// Reads the whole input and keeps as much of it as the area holds; how many bytes are kept.
pub fn read_to_end<R: Read>(reader: &mut R, area: &mut [u8]) -> Result<usize, Failed>
    ensures within { MatchResult result (λ n. n ≤ length area.new) (λ e. e.length ≤ length area.new) }
    ensures kept { IfOk result (λ n. IfSome (R.remaining reader.old) (λ input. take n area.new ≡ take (length area.new) input)) }
    ensures end { OnOk result (IsAtEnd (R.remaining reader.new)) }
{
    let length = fill(reader, area)?;
    if length == area.len() {
        pass_rest(reader).map_err(|_| Failed { length })?;
    }
    Ok(length)
}

#[cfg(test)]
mod tests {
    use super::*;
    use std::test::Fail;

    // Gives a byte at a time, and fails in place of the fourth.
    #[derive(Drop)]
    struct Failing {
        given: u8,
    }

    impl Read for Failing {
        fn read(&mut self, buf: &mut [u8]) -> io::Result<usize> {
            if self.given == 3 {
                return Err(io::Error::from(io::ErrorKind::Other));
            }
            if buf.is_empty() {
                return Ok(0);
            }
            self.given = self.given.saturating_add(1);
            buf[0] = self.given;
            Ok(1)
        }
    }

    #[test]
    fn keeps_what_the_area_holds(rt: HostRuntime) -> Result<(), Fail> {
        let mut reader = b"abcdef".as_slice();
        let mut area = [0u8; 4];
        let kept = read_to_end(&mut reader, &mut area)
            .ok()
            .ok_or("no read fails")?;
        assert_eq!(rt; kept, 4);
        assert_eq!(rt; area, *b"abcd");
        assert!(rt; reader.is_empty());
        Ok(())
    }

    #[test]
    fn tells_a_read_that_fails(rt: HostRuntime) -> Result<(), Fail> {
        let mut reader = Failing { given: 0 };
        let mut area = [0u8; 2];
        let first = fill(&mut reader, &mut area).ok().ok_or("no read fails")?;
        assert_eq!(rt; first, 2);
        let second = fill(&mut reader, &mut area).err().ok_or("a read fails")?;
        assert_eq!(rt; second.length, 1);
        assert_eq!(rt; area, [3, 2]);
        Ok(())
    }

    #[test]
    fn tells_a_rest_that_cannot_be_read(rt: HostRuntime) -> Result<(), Fail> {
        let mut reader = Failing { given: 0 };
        let mut area = [0u8; 2];
        let failed = read_to_end(&mut reader, &mut area)
            .err()
            .ok_or("a read fails")?;
        assert_eq!(rt; failed.length, 2);
        Ok(())
    }
}
