// The text that is made of a key.
ghost use Rattle.std.specs.Prelude.{◌<◌, ◌≤◌};
ghost use Rattle.sk_quant.specs.Limits.{key_end};
ghost use Rattle.sk_make.specs.Made.{most_made};

use super::expect;
use sk_io::Source;
use sk_make::MakeSource;
use sk_quant::limits::KEY_END;
use std::alloc::Global;
use std::test::Fail;

// The text of n numbers of a key, read in pieces of that many bytes.
fn text_of(alloc: Global, n: u64, key: u64, piece: usize) -> Result<Vec<u8>, Fail>
    requires lines { n ≤ most_made }
    requires key { key < key_end }
    requires some { 0 < piece }
    requires fits { piece ≤ 64 }
{
    let mut source = MakeSource::new(n, key)?;
    let mut text = Vec::new(alloc);
    let mut buf = [0; 64];
    'read: for _ in 0..1_000 {
        let len = source.read(&mut buf[..piece]).unwrap_or(0);
        if len == 0 {
            return Ok(text);
        }
        text.extend_from_slice(&buf[..len])?;
    }
    Ok(text)
}

// Another ChaCha8 computed these numbers, which gives the published key stream of zeros for key 0.
#[test]
fn the_first_numbers_of_keys(rt: HostRuntime) -> Result<(), Fail> {
    let alloc = rt.alloc();
    let zero = b"52703547807296\n255878506717605\n214467114449791\n150500403584538\n";
    let seven = b"48673697547164\n257962671437639\n126065824366963\n16502099037478\n";
    let last = b"276778140392789\n185953603250213\n14137090636248\n105281133985854\n";
    for piece in [1u8, 7, 64] {
        let piece = usize::from(piece).clamp(1, 64);
        expect(
            &rt,
            text_of(alloc, 4, 0, piece)?.as_slice(),
            zero.as_slice(),
        );
        expect(
            &rt,
            text_of(alloc, 4, 7, piece)?.as_slice(),
            seven.as_slice(),
        );
        expect(
            &rt,
            text_of(alloc, 4, KEY_END - 1, piece)?.as_slice(),
            last.as_slice(),
        );
    }
    Ok(())
}

// The generator keeps 64 words, which are 32 numbers.
#[test]
fn numbers_after_the_first_words(rt: HostRuntime) -> Result<(), Fail> {
    let text = text_of(rt.alloc(), 34, 7, 64)?;
    assert!(rt; text.ends_with(b"\n80906096620857\n27108468682636\n"));
    Ok(())
}

#[test]
fn no_numbers(rt: HostRuntime) -> Result<(), Fail> {
    assert!(rt; text_of(rt.alloc(), 0, 7, 64)?.is_empty());
    Ok(())
}
