use super::{expect, expect_at};
use sk_hash::{hash48, hash63, hash63_at, murmur128};
use sk_lines::{hash_line, read_hash};
use sk_model::limits::ITEM_DIGITS;
use std::alloc::Global;
use std::process::Abort;

fn expect_hashes(rt: &impl Abort, text: &str, first: u64, item: u64, item48: u64) {
    expect_at(rt, text, murmur128(0, text.as_bytes()).0, first);
    expect_at(rt, text, hash63(0, text.as_bytes()), item);
    expect_at(rt, text, hash48(0, text.as_bytes()), item48);
}

#[test]
fn known_hashes(rt: HostRuntime) {
    let cases: [(&str, u64, u64, u64); 4] = [
        ("", 0, 1, 0),
        (
            "hello",
            0xcbd8_a7b3_41bd_9b02,
            0x65ec_53d9_a0de_cd81,
            0xcbd8_a7b3_41bd,
        ),
        (
            "hello, world",
            0x342f_ac62_3a5e_bc8e,
            0x1a17_d631_1d2f_5e47,
            0x342f_ac62_3a5e,
        ),
        (
            "The quick brown fox jumps over the lazy dog.",
            0xcd99_481f_9ee9_02c9,
            0x66cc_a40f_cf74_8164,
            0xcd99_481f_9ee9,
        ),
    ];
    for (text, first, item, item48) in cases {
        expect_hashes(&rt, text, first, item, item48);
    }
}

// SMHasher's verification of the function: the hash of the hashes of the keys 0, 1, 2, .. of each
// length below 256, each by the seed 256 less its length.
#[test]
fn public_verification(rt: HostRuntime) {
    let (mut key, mut all) = (Vec::new(rt.alloc()), Vec::new(rt.alloc()));
    for i in 0..=255u8 {
        let (first, second) = murmur128(256 - u32::from(i), key.as_slice());
        for half in [first, second] {
            all.extend_from_slice(&half.to_le_bytes())
                .expect(&rt, "room for a hash");
        }
        key.push(i).expect(&rt, "room for a byte");
    }
    expect(&rt, all.len(), 4096);
    expect(
        &rt,
        murmur128(0, all.as_slice()).0 & 0xffff_ffff,
        0x6384_ba69,
    );
}

// The key of a length: its byte i is (131 n + 37 i + i² / 3) mod 256.
fn key_of(rt: &impl Abort, alloc: Global, len: u8) -> Vec<u8> {
    let len = u32::from(len);
    let mut key = Vec::new(alloc);
    for i in 0..len {
        let byte = (131 * len + 37 * i + i * i / 3) % 256;
        key.push(byte as u8).expect(rt, "room for a byte");
    }
    key
}

// Expects the hash of the key of a length, alone and before more bytes.
fn expect_halves(rt: &impl Abort, alloc: Global, len: u8, seed: u32, halves: (u64, u64)) {
    let mut key = key_of(rt, alloc, len);
    expect_at(rt, len, murmur128(seed, key.as_slice()), halves);
    let end = key.len();
    key.extend_from_slice(&[0xff; 16])
        .expect(rt, "room for bytes after the key");
    expect_at(
        rt,
        len,
        hash63_at(seed, key.as_slice(), 0, end),
        halves.0 >> 1,
    );
}

// The values come from a C program written after the public reference code.
#[test]
fn both_halves_at_some_lengths(rt: HostRuntime) {
    let cases: [(u8, u32, u64, u64); 8] = [
        (1, 0x9e37_79b9, 0x65d4_3364_376b_b8c1, 0x0458_6555_c9a1_cc74),
        (3, 0xdaa6_6d2b, 0x116c_1b00_c457_da34, 0x0c46_8be8_2410_390e),
        (7, 0x5384_540f, 0xb409_5d7e_67cb_ce87, 0x4438_4b9a_82bd_5bc6),
        (8, 0xf1bb_cdc8, 0x2593_c34c_a982_7fde, 0xf2c2_8f1c_9ff3_6c17),
        (
            13,
            0x08d1_2e65,
            0x907f_7b49_989e_1463,
            0xaf11_dd01_6347_d1a6,
        ),
        (
            17,
            0x81af_1549,
            0xf09d_95f8_6d02_6a22,
            0x42b0_00ec_8cb4_22ce,
        ),
        (
            31,
            0x28b7_bd67,
            0x1563_5739_7a8d_dfbb,
            0xe3ab_9343_0376_201d,
        ),
        (
            40,
            0xb8ab_04e8,
            0x7dca_9e33_6266_7efa,
            0x53bd_53d9_7034_662f,
        ),
    ];
    for (len, seed, first, second) in cases {
        expect_halves(&rt, rt.alloc(), len, seed, (first, second));
    }
}

#[test]
fn hashes_as_text(rt: HostRuntime) {
    let rows: [(u64, &[u8]); 3] = [
        (1, b"0000000000000001\n"),
        (224_131_386_917_309, b"0000cbd8a7b341bd\n"),
        (9_223_372_036_854_775_807, b"7fffffffffffffff\n"),
    ];
    for (hash, want) in rows {
        expect(&rt, hash_line(hash).as_slice(), want);
        expect(&rt, read_hash(want, ITEM_DIGITS), None);
        expect(
            &rt,
            read_hash(&want[..ITEM_DIGITS], ITEM_DIGITS),
            Some(hash),
        );
    }
    let others: [&[u8]; 4] = [b"", b"00000000000", b"CBD8A7B341BD", b"00000000000g"];
    for digits in others {
        expect(&rt, read_hash(digits, 12), None);
    }
}
