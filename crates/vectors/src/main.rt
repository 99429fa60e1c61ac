// Runs published vectors and cases at edges: words in decimal or hexadecimal as they are published, floats by their bits, any NaN as `nan`.
#![tactic(auto)]

use rng::Xoshiro256;
use std::io;

fn print(rt: &impl Print, text: &[u8]) -> io::Result<()> {
    rt.write_all(text)
}

fn decimal_line(rt: &impl Print, n: u64) -> io::Result<()> {
    println!(rt; "{n}")
}

fn hex_line(rt: &impl Print, n: u64) -> io::Result<()> {
    println!(rt; "{n:016x}")
}

fn float_line(rt: &impl Print, x: f64) -> io::Result<()> {
    if x != x {
        print(rt, b"nan\n")
    } else {
        hex_line(rt, x.to_bits())
    }
}

fn generator(rt: &impl Print) -> io::Result<()> {
    print(rt, b"xoshiro256** from 1 2 3 4\n")?;
    let mut rng = Xoshiro256::from_state([1, 2, 3, 4]);
    for _ in 0..10 {
        let output = rng.next_u64();
        decimal_line(rt, output.value)?;
        rng = output.rng;
    }
    Ok(())
}

// Writes the four outputs that follow a seed, and hands on the counter after them.
fn four(rt: &impl Print, seed: u64) -> io::Result<u64> {
    for n in rng::splitmix64(seed) {
        decimal_line(rt, n)?;
    }
    Ok(seed.wrapping_add(words::wrapping_mul(4, 0x9E37_79B9_7F4A_7C15)))
}

fn seeds(rt: &impl Print) -> io::Result<()> {
    print(rt, b"SplitMix64 from 1234567\n")?;
    let a = rng::splitmix64(four(rt, 1234567)?);
    decimal_line(rt, a[0])?;
    print(rt, b"SplitMix64 from 1477776061723855037\n")?;
    let b = rng::splitmix64(four(rt, four(rt, 1477776061723855037)?)?);
    decimal_line(rt, b[0])?;
    decimal_line(rt, b[1])?;
    print(rt, b"SplitMix64 from 0\n")?;
    for n in rng::splitmix64(0) {
        hex_line(rt, n)?;
    }
    Ok(())
}

fn log(rt: &impl Print, x: f64) -> io::Result<()> {
    float_line(rt, portable_log::plog(x))
}

fn logarithms(rt: &impl Print) -> io::Result<()> {
    print(rt, b"plog, the source's thirteen\n")?;
    for x in [
        0.5,
        2.0,
        0.1,
        1e-300,
        0.999999,
        3.0,
        10.0,
        1.0,
        0.7071067811865476,
        0.7071067811865475,
        1.0000000000000002,
        0.9999999999999999,
        1e-09,
    ] {
        log(rt, x)?;
    }
    Ok(())
}

fn more_logarithms(rt: &impl Print) -> io::Result<()> {
    print(rt, b"plog of NaN, infinity, -infinity, -1, 0, -0\n")?;
    for x in [0.0 / 0.0, 1.0 / 0.0, -1.0 / 0.0, -1.0, 0.0, -0.0] {
        log(rt, x)?;
    }
    Ok(())
}

fn parts(rt: &impl Print, x: f64) -> io::Result<()> {
    let p = portable_log::frexp(x);
    float_line(rt, p.frac)?;
    float_line(rt, p.exp as f64)
}

fn fractions(rt: &impl Print) -> io::Result<()> {
    print(
        rt,
        b"frexp of 1, 2^-1074, 0, -0, infinity, -3, NaN: fraction, and exponent as a float\n",
    )?;
    for x in [1.0, 5e-324, 0.0, -0.0, 1.0 / 0.0, -3.0, 0.0 / 0.0] {
        parts(rt, x)?;
    }
    Ok(())
}

fn root_of(rt: &impl Print, x: f64) -> io::Result<()> {
    float_line(rt, root::sqrt(x))
}

fn roots(rt: &impl Print) -> io::Result<()> {
    print(
        rt,
        b"roots of 4, 2, 0.25, 2^-1074, the largest subnormal, the largest number\n",
    )?;
    for x in [
        4.0,
        2.0,
        0.25,
        5e-324,
        2.225073858507201e-308,
        1.7976931348623157e308,
    ] {
        root_of(rt, x)?;
    }
    print(
        rt,
        b"roots of 0, -0, infinity, -infinity, -1, -2^-1074, NaN\n",
    )?;
    for x in [0.0, -0.0, 1.0 / 0.0, -1.0 / 0.0, -1.0, -5e-324, 0.0 / 0.0] {
        root_of(rt, x)?;
    }
    Ok(())
}

fn ways_line(rt: &impl Print, ways: Option<f64>) -> io::Result<()> {
    match ways {
        Some(x) => float_line(rt, x),
        None => print(rt, b"refused\n"),
    }
}

fn ways(rt: &impl Print, m: i64, w: i64) -> io::Result<()> {
    ways_line(rt, combinations::combinations(m, w).map(|c| c.value))
}

fn whole_ways(rt: &impl Print) -> io::Result<()> {
    print(
        rt,
        b"combinations (5, 2), (1, 2), (1, -3), (0, 0), (5, 17), (17, 17), (16, 16), (100, 16)\n",
    )?;
    for (x, w) in [
        (5, 2),
        (1, 2),
        (1, -3),
        (0, 0),
        (5, 17),
        (17, 17),
        (16, 16),
        (100, 16),
    ] {
        ways(rt, x, w)?;
    }
    print(
        rt,
        b"combinations (2^53, 1), (2^53 + 1, 1), (2^53, 16), (-1, 1), (-1, -1)\n",
    )?;
    for (x, w) in [
        (9007199254740992, 1),
        (9007199254740993, 1),
        (9007199254740992, 16),
        (-1, 1),
        (-1, -1),
    ] {
        ways(rt, x, w)?;
    }
    Ok(())
}

fn real(rt: &impl Print, x: f64, w: i64) -> io::Result<()> {
    ways_line(rt, combinations::combinations_real(x, w))
}

fn real_ways(rt: &impl Print) -> io::Result<()> {
    print(
        rt,
        b"combinations_real (0.5, 2), (5, 2), (0.5, 16), (0.5, 17), (NaN, 0), (NaN, 1), (NaN, 17), (infinity, 2), (-0, 1)\n",
    )?;
    for (x, w) in [
        (0.5, 2),
        (5.0, 2),
        (0.5, 16),
        (0.5, 17),
        (0.0 / 0.0, 0),
        (0.0 / 0.0, 1),
        (0.0 / 0.0, 17),
        (1.0 / 0.0, 2),
        (-0.0, 1),
    ] {
        real(rt, x, w)?;
    }
    Ok(())
}

fn rotations(rt: &impl Print) -> io::Result<()> {
    print(
        rt,
        b"rotations of 8000000000000001 by 0, 1, 63, 64, 65, 2^32 - 1\n",
    )?;
    for k in [0, 1, 63, 64, 65, 0xFFFF_FFFF] {
        hex_line(rt, words::rotate_left(0x8000_0000_0000_0001, k))?;
    }
    Ok(())
}

fn main(rt: HostRuntime) -> io::Result<()> {
    generator(&rt)?;
    seeds(&rt)?;
    logarithms(&rt)?;
    more_logarithms(&rt)?;
    fractions(&rt)?;
    roots(&rt)?;
    whole_ways(&rt)?;
    real_ways(&rt)?;
    rotations(&rt)
}
