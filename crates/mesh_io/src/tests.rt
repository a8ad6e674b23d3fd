//! Tests of decimals, shelves and sinks.
use super::*;
use std::alloc::{AllocError, Global};
use std::fs;
use std::test::Fail;

#[test]
fn whole_numbers_are_printed(rt: HostRuntime) -> Result<(), Fail> {
    let cases = [
        (0i64, "0"),
        (-7, "-7"),
        (2147483648, "2147483648"),
        (9223372036854775807, "9223372036854775807"),
        (-9223372036854775808, "-9223372036854775808"),
    ];
    for (number, want) in cases {
        let mut to = Vec::new(rt.alloc());
        let outcome = put_whole(&mut to, number);
        assert!(rt;
            outcome.is_ok() && to.as_slice() == want.as_bytes(),
            "{number}"
        );
    }
    Ok(())
}

#[test]
fn a_real_file_is_loaded_up_to_the_limit(rt: HostRuntime) -> Result<(), Fail> {
    fs::write(&rt, "made.txt", "12345\n")?;
    let mut shelf = FileShelf::new(&rt);
    let whole = shelf.load(rt.alloc(), "made.txt", 6);
    assert!(rt; whole.is_ok_and(|bytes| bytes.as_slice() == "12345\n".as_bytes()));
    let long = shelf.load(rt.alloc(), "made.txt", 5);
    assert!(rt; matches!(&long, Err(LoadRefusal::TooLong { read: 6 })));
    let missing = shelf.load(rt.alloc(), "none.txt", 6);
    assert!(rt; matches!(&missing, Err(LoadRefusal::Failed)));
    Ok(())
}

#[test]
fn a_long_text_reaches_a_real_file(rt: HostRuntime) -> Result<(), Fail> {
    let text = vec![in rt.alloc(); b'x'; 200000]?;
    let mut sink = StreamSink::new(fs::create(&rt, "made.txt")?);
    let outcome = put_all(&mut sink, text.as_slice());
    assert!(rt; outcome.is_ok());
    let bytes = fs::read(&rt, "made.txt")?;
    assert!(rt; bytes == text);
    Ok(())
}

// Takes each piece whole, and keeps the length of the longest.
#[derive(Drop)]
struct Widest {
    bytes: usize,
}

impl Sink for Widest {
    ghost use Rattle.std.specs.Prelude.{None};

    ghost holds = { λ _. None };

    ghost faults = { λ _. 0 };

    fn write(&mut self, piece: &[u8]) -> Result<usize, Failed> {
        self.bytes = self.bytes.max(piece.len());
        Ok(piece.len())
    }
}

#[test]
fn no_piece_is_longer_than_64_kibibytes(rt: HostRuntime) -> Result<(), Fail> {
    let text = vec![in rt.alloc(); b'x'; 200000]?;
    let mut sink = Widest { bytes: 0 };
    let outcome = put_all(&mut sink, text.as_slice());
    assert!(rt; outcome.is_ok());
    assert_eq!(rt; sink.bytes, 65536);
    Ok(())
}

#[test]
fn a_sink_that_fails_keeps_the_front_of_the_text(rt: HostRuntime) -> Result<(), Fail> {
    // Room, most in one write, the write that is to fail, what is held then.
    let cases = [
        (100usize, 4usize, 3u64, "01234567"),
        (6, 4, 0, "012345"),
        (100, 4, 0, "0123456789"),
        (10, 100, 2, "0123456789"),
        (0, 1, 0, ""),
    ];
    for (room, most, fault, want) in cases {
        let faults = vec![in rt.alloc(); fault]?;
        let Ok(mut sink) = MemSink::new(rt.alloc(), room, most, faults) else {
            return Err(AllocError.into());
        };
        let outcome = put_all(&mut sink, b"0123456789");
        assert_eq!(rt; outcome.is_ok(), want.len() == 10, "{want}");
        assert!(rt; sink.bytes() == want.as_bytes(), "{want}");
    }
    Ok(())
}

fn file(alloc: Global, name: &str, text: &str) -> Result<(String, Vec<u8>), AllocError> {
    Ok((
        String::from_str(alloc, name)?,
        Vec::from_slice(alloc, text.as_bytes())?,
    ))
}

#[test]
fn the_first_of_equal_names_is_loaded_but_at_listed_calls(rt: HostRuntime) -> Result<(), Fail> {
    let mut files = Vec::new(rt.alloc());
    files.push(file(rt.alloc(), "a", "first")?)?;
    files.push(file(rt.alloc(), "b", "other")?)?;
    files.push(file(rt.alloc(), "a", "second")?)?;
    let faults = vec![in rt.alloc(); 2, 5]?;
    let mut shelf = MemShelf::new(files, faults);
    // The calls in order; no text where one fails.
    let calls = [
        ("a", "first"),
        ("a", ""),
        ("a", "first"),
        ("c", ""),
        ("b", ""),
        ("b", "other"),
    ];
    for (name, want) in calls {
        match shelf.load(rt.alloc(), name, 5) {
            Ok(bytes) => assert!(rt; bytes.as_slice() == want.as_bytes(), "{name}"),
            Err(refusal) => {
                assert!(rt;
                    matches!(&refusal, LoadRefusal::Failed) && want.is_empty(),
                    "{name}"
                )
            }
        }
    }
    let long = shelf.load(rt.alloc(), "b", 4);
    assert!(rt; matches!(&long, Err(LoadRefusal::TooLong { read: 5 })));
    Ok(())
}

fn tell<G: Gate + Sync>(gate: &G) {
    gate.at(GatePoint::Claimed, 1);
}

#[test]
fn threads_may_share_a_gate_that_holds_nobody() {
    tell(&NoGate);
}

// The expected values of the decimals are those of exact fractions.

#[test]
fn decimals_are_read_without_the_fraction_of_a_fine_unit(rt: HostRuntime) {
    let cases: [(&str, i64); 38] = [
        ("1.0e+00", 40960000000000),
        ("0.33333333333333331", 13653333333333),
        ("-0.33333333333333331", -13653333333333),
        (".5", 20480000000000),
        ("5.", 204800000000000),
        ("+.5e-3", 20480000000),
        ("+5", 204800000000000),
        ("007", 286720000000000),
        ("-0", 0),
        ("-0.0", 0),
        ("-1e-300", 0),
        ("0e999999", 0),
        ("1e-999999", 0),
        ("100000", 4096000000000000000),
        ("-100000", -4096000000000000000),
        ("100000.00000000000001", 4096000000000000000),
        ("100000.0000000000000244140624", 4096000000000000000),
        ("1e5", 4096000000000000000),
        ("1.00000000000000000002441e5", 4096000000000000000),
        ("1E+05", 4096000000000000000),
        ("1E-05", 409600000),
        ("-.5E1", -204800000000000),
        (
            "000000000000000000000000000000000000000000001",
            40960000000000,
        ),
        (
            "0.000000000000000000000000000000000000000000000000000000000001e60",
            40960000000000,
        ),
        (
            "1000000000000000000000000000000000000000000000000000000000000e-60",
            40960000000000,
        ),
        (
            "1000000000000000000000000000000000000000000000000000000000000e-55",
            4096000000000000000,
        ),
        (
            "9999999999999999999999999999999999999999999999999999999999999999999999e-65",
            4095999999999999999,
        ),
        ("123456789012345678901234567890.5e-25", 505679007794567900),
        ("0.0000000000000244140625", 1),
        ("0.0000000000000244140624", 0),
        ("99999.9999999999999999999999", 4095999999999999999),
        ("0.1", 4096000000000),
        ("-0.1", -4096000000000),
        ("1e+000005", 4096000000000000000),
        (
            "-749118625276018955597.7114710497465075291703423667127684268e-16",
            -3068389889130573642,
        ),
        ("+26018159083016613186e-15", 1065703796040360476),
        (
            "5004743957551313735379907511637.65167612220e-26",
            2049943125013018106,
        ),
        ("-7280385280841485e-11", -2982045811032672256),
    ];
    for (text, want) in cases {
        assert_eq!(rt; read_decimal(text.as_bytes()), Ok(want), "{text}");
    }
}

#[test]
fn other_tokens_are_no_decimals(rt: HostRuntime) {
    let cases: [&str; 22] = [
        ".",
        "",
        "+",
        "-",
        "+.",
        "1e",
        "1e+",
        "1e1234567",
        "1e0000005",
        "0x1",
        "1.2.3",
        "1e5.",
        "1e5e",
        "--1",
        "+-1",
        "e5",
        ".e5",
        " 1",
        "1 ",
        "1_0",
        "١",
        "1,5",
    ];
    for text in cases {
        let refusal = read_decimal(text.as_bytes());
        assert_eq!(rt; refusal, Err(DecimalRefusal::NotANumber), "{text}");
    }
}

#[test]
fn the_range_ends_at_the_next_fine_unit(rt: HostRuntime) {
    let cases: [&str; 8] = [
        "1e999999",
        "100000.0000000000000244140625",
        "-100000.0000000000000244140625",
        "1e6",
        "100001",
        "+0308246281948219935181909.7865797543231e-12",
        "603137215901092815901396245957e2",
        "-865635515058770658948113114",
    ];
    for text in cases {
        let refusal = read_decimal(text.as_bytes());
        assert_eq!(rt; refusal, Err(DecimalRefusal::CoordRange), "{text}");
    }
}

#[test]
fn fine_units_are_written_exactly(rt: HostRuntime) -> Result<(), Fail> {
    let cases: [(i64, &str); 30] = [
        (0, "0"),
        (1, "0.0000000000000244140625"),
        (-1, "-0.0000000000000244140625"),
        (4095, "0.0000000000999755859375"),
        (4096, "0.0000000001"),
        (-4097, "-0.0000000001000244140625"),
        (409600000, "0.00001"),
        (20480000000000, "0.5"),
        (40960000000000, "1"),
        (-40960000000000, "-1"),
        (13653333333333, "0.3333333333333251953125"),
        (-13653333333333, "-0.3333333333333251953125"),
        (4096000000000000000, "100000"),
        (-4096000000000000000, "-100000"),
        (4095999999999999999, "99999.9999999999999755859375"),
        (-454396017616483017, "-11093.6527738399174072265625"),
        (-3650636318383037360, "-89126.863241773373046875"),
        (3478918311415852851, "84934.5290873010949951171875"),
        (-3227803591814180821, "-78803.7986282758989501953125"),
        (1279270654777870840, "31232.1937201628623046875"),
        (-2115758777144226059, "-51654.2670201227065185546875"),
        (-89934835, "-0.0000021956746826171875"),
        (-815429715, "-0.0000199079520263671875"),
        (4747395930, "0.000115903220947265625"),
        (-35275463793, "-0.0008612173777587890625"),
        (211570386905, "0.0051652926490478515625"),
        (-7919412532698, "-0.193345032536572265625"),
        (59162154390703, "1.4443885349292724609375"),
        (420041700913241, "10.2549243387021728515625"),
        (-7771182780904023, "-189.7261421119146240234375"),
    ];
    for (units, want) in cases {
        let mut to = Vec::new(rt.alloc());
        let outcome = put_decimal(&mut to, units);
        assert!(rt;
            outcome.is_ok() && to.as_slice() == want.as_bytes(),
            "{units}"
        );
    }
    Ok(())
}
