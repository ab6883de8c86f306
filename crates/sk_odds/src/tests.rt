//! Factors and intervals against those of whole powers, which a program in Python computed without rounding.
use crate::{Factors, Interval};
use std::process::Abort;
use std::test::Fail;

fn expect_factors(rt: &impl Abort, k: u32, d: u32, low: u64, high: u64) {
    assert!(rt; 1 <= k && k <= 1_048_576 && 1 <= d && d <= 256);
    assert_eq!(rt; Factors::find(k, d), Factors { k, low, high }, "{k} {d}");
}

#[test]
fn factors_are_those_of_whole_powers(rt: HostRuntime) -> Result<(), Fail> {
    let rows: [(u32, u32, u64, u64); 8] = [
        (3, 20, 2_875_192_627, 37_838_180_131),
        (3, 200, 1_334_546_199, 50_718_588_982),
        (256, 40, 925_046_266_415, 1_294_601_366_805),
        (4_096, 20, 16_929_987_034_112, 18_271_458_446_972),
        (4_096, 40, 16_858_105_008_190, 18_347_251_892_290),
        (4_096, 200, 16_714_582_126_671, 18_500_049_919_984),
        (65_536, 40, 278_501_139_271_523, 284_469_901_147_846),
        (1_048_576, 200, 4_489_297_857_514_768, 4_517_931_811_774_856),
    ];
    for (k, d, low, high) in rows {
        expect_factors(&rt, k, d, low, high);
    }
    Ok(())
}

#[test]
fn an_interval_is_rounded_outwards(rt: HostRuntime) -> Result<(), Fail> {
    let factors = Factors {
        k: 4_096,
        low: 16_858_105_008_190,
        high: 18_347_251_892_290,
    };
    let half = Interval {
        low: 7_851,
        high: 8_543,
    };
    assert_eq!(&rt; factors.interval(4_096, 1 << 62), half);
    let few = Interval {
        low: 4_095,
        high: 4_095,
    };
    assert_eq!(&rt; factors.interval(4_095, 1 << 63), few);
    Ok(())
}
