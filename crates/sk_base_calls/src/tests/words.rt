// Words of a command line.
use super::expect;
use sk_io::words_of;
use std::env::FillError;
use std::rt::Env;
use std::test::Fail;

// A command line of the program's name and one word, of that many times a byte.
#[derive(Drop)]
struct OneWord {
    byte: u8,
    len: usize,
}

impl Env for OneWord {
    fn arg(&self, i: usize, buf: &mut [u8]) -> Result<usize, FillError> {
        if i != 1 {
            return Err(FillError::NotPresent);
        }
        if buf.len() < self.len {
            return Err(FillError::TooLong);
        }
        buf[..self.len].fill(self.byte);
        Ok(self.len)
    }

    fn var(&self, _name: &str, _buf: &mut [u8]) -> Result<usize, FillError> {
        Err(FillError::NotPresent)
    }

    fn var_at(&self, _i: usize, _buf: &mut [u8]) -> Result<usize, FillError> {
        Err(FillError::NotPresent)
    }
}

// A word is whole, however long it is.
#[test]
fn words_of_any_length(rt: HostRuntime) -> Result<(), Fail> {
    let alloc = rt.alloc();
    for len in [0usize, 1, 256, 257, 512, 5_000] {
        let words = words_of(&OneWord { byte: b'x', len }, alloc)?;
        expect(&rt, words.len(), 1);
        assert!(rt; words.first().is_some_and(|word| word.len() == len));
    }
    Ok(())
}

#[test]
fn a_word_that_is_no_text_is_empty(rt: HostRuntime) -> Result<(), Fail> {
    let alloc = rt.alloc();
    for len in [1usize, 257] {
        let words = words_of(&OneWord { byte: 0xff, len }, alloc)?;
        expect(&rt, words.len(), 1);
        assert!(rt; words.first().is_some_and(|word| word.is_empty()));
    }
    Ok(())
}
