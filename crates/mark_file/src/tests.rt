use crate::read::read_marks;
use crate::write::put_row;
use mesh_names::name::ElemName;
use mesh_names::rows::{MarkRow, Place, What};
use mesh_names::spelling::{put_name, read_name};
use std::alloc::{AllocError, Global};
use std::fmt::Write;
use std::process::Abort;
use std::str;
use std::test::Fail;

/// The most bytes that a marks file may have.
const LIMIT: usize = 67_108_864;

/// Rows, each as the only one after the header, and what is told of them.
const ROWS: &str = r#"1,mark,0,1 => 1 rounds; 1: row 2 mark 0 1
1,mark,*,00 => 1 rounds; 1: row 2 mark * 0
00002,mark,65534,24 => 2 rounds; 2: row 2 mark 65534 24
65535,mark,12.0110,7 => 65535 rounds; 65535: row 2 mark 12.0110 7
" 1 ","mark"," 0","2 " => 1 rounds; 1: row 2 mark 0 2
1,"ma"rk,0,1 => 1 rounds; 1: row 2 mark 0 1
1,mark, "0",1 => row 2: bad where
1,mark,"""0",1 => row 2: bad where
1,mark,0,"1 => 1 rounds; 1: row 2 mark 0 1
1,mark,0 => row 2: bad fields
1,mark,0,1, => row 2: bad fields
"" => row 2: bad fields
  => row 2: bad fields
000001,mark,0,1 => row 2: bad round
0,mark,0,1 => row 2: bad round
65536,mark,0,1 => row 2: bad round
+1,mark,0,1 => row 2: bad round
,mark,0,1 => row 2: bad round
x,elem,00,99 => row 2: bad round
x,elm,00,99 => row 2: bad round
1,elm,00,99 => row 2: bad what
1,elem,00,99999999999 => row 2: bad where
1,vert,0,x => row 2: bad where
1,vert,0/1,x => row 2: bad number
1,mark,00,99 => row 2: bad where
1,Elem,0,1 => row 2: bad what
1,elements,0,1 => row 2: bad what
1,ver,0/1,1 => row 2: bad what
1,,0,1 => row 2: bad what
1,Mark,0,1 => row 2: bad what
1,mark,0.000000000000000000000001,1 => 1 rounds; 1: row 2 mark 0.000000000000000000000001 1
1,mark,0.0000000000000000000000001,1 => row 2: bad where
1,mark,00,1 => row 2: bad where
1,mark,0.,1 => row 2: bad where
1,mark,.0,1 => row 2: bad where
1,mark,65535,1 => row 2: bad where
1,mark,+0,1 => row 2: bad where
1,mark,0.2,1 => row 2: bad where
1,mark,0/1,1 => row 2: bad where
1,mark,,1 => row 2: bad where
1,mark,0.0.1,1 => row 2: bad where
1,mark,99999999999999999999,1 => row 2: bad where
1,mark,0,25 => row 2: bad number
1,mark,0,-1 => 1 rounds; 1: row 2 mark 0 -1
1,mark,*,-24 => 1 rounds; 1: row 2 mark * -24
1,mark,0,-25 => row 2: bad number
1,mark,0,+5 => 1 rounds; 1: row 2 mark 0 5
1,mark,0,-0 => 1 rounds; 1: row 2 mark 0 0
1,mark,0,000000000000000000000000000000000000000000000000000000000007 => 1 rounds; 1: row 2 mark 0 7
1,mark,0,999999999999999999999999999999999999999999999999999999999999 => row 2: bad number
1,mark,0,-999999999999999999999999999999999999999999999999999999999999 => row 2: bad number
1,mark,0, => row 2: bad number
1,mark,0,+ => row 2: bad number
1,mark,0,1.0 => row 2: bad number
1,mark,0,--1 => row 2: bad number
"#;

/// Rows of values: the places and the numbers that they take.
const VALUE_ROWS: &str = r#"1,elem,0,5 => 1 rounds; 1: row 2 elem 0 5
1,elem,*,-7 => 1 rounds; 1: row 2 elem * -7
1, elem ,12.0110,0 => 1 rounds; 1: row 2 elem 12.0110 0
1,elem,0/1,5 => row 2: bad where
1,elem,65535,5 => row 2: bad where
1,elem,0.,5 => row 2: bad where
1,elem,,5 => row 2: bad where
1,elem,**,5 => row 2: bad where
1,vert,*,5 => 1 rounds; 1: row 2 vert * 5
1,vert,0/0,1 => 1 rounds; 1: row 2 vert 0/0 1
1,vert,0/1,1 => 1 rounds; 1: row 2 vert 0/1 1
1,vert,65534/2,1 => 1 rounds; 1: row 2 vert 65534/2 1
3,vert,"0.01/2 ",-3 => 3 rounds; 3: row 2 vert 0.01/2 -3
1,vert,0.000000000000000000000001/2,1 => 1 rounds; 1: row 2 vert 0.000000000000000000000001/2 1
1,vert,0.0000000000000000000000001/2,1 => row 2: bad where
1,vert,0/3,1 => row 2: bad where
1,vert,0/9,1 => row 2: bad where
1,vert,0/-,1 => row 2: bad where
1,vert,0/,1 => row 2: bad where
1,vert,0/00,1 => row 2: bad where
1,vert,0/1/1,1 => row 2: bad where
1,vert,0/ 1,1 => row 2: bad where
1,vert,0 /1,1 => row 2: bad where
1,vert,0.1,1 => row 2: bad where
1,vert,01,1 => row 2: bad where
1,vert,0,1 => row 2: bad where
1,vert,/0,1 => row 2: bad where
1,vert,/,1 => row 2: bad where
1,vert,,1 => row 2: bad where
1,vert,*/0,1 => row 2: bad where
1,vert,00/0,1 => row 2: bad where
1,vert,0./0,1 => row 2: bad where
1,vert,65535/0,1 => row 2: bad where
1,elem,0,25 => 1 rounds; 1: row 2 elem 0 25
1,elem,0,2147483648 => 1 rounds; 1: row 2 elem 0 2147483648
1,elem,0,-2147483648 => 1 rounds; 1: row 2 elem 0 -2147483648
1,elem,0,+2147483648 => 1 rounds; 1: row 2 elem 0 2147483648
1,elem,0,2147483649 => row 2: bad number
1,elem,0,-2147483649 => row 2: bad number
1,vert,0/2,2147483648 => 1 rounds; 1: row 2 vert 0/2 2147483648
1,vert,0/2,-2147483648 => 1 rounds; 1: row 2 vert 0/2 -2147483648
1,vert,0/2,2147483649 => row 2: bad number
1,vert,0/2,-2147483649 => row 2: bad number
1,mark,0,2147483648 => row 2: bad number
1,elem,0,4294967297 => row 2: bad number
1,elem,0,9223372036854775808 => row 2: bad number
1,elem,0,-9223372036854775808 => row 2: bad number
1,elem,0,18446744073709551617 => row 2: bad number
1,elem,0,000000000000000000000000000000000000000000000000002147483648 => 1 rounds; 1: row 2 elem 0 2147483648
1,elem,0,999999999999999999999999999999999999999999999999999999999999 => row 2: bad number
1,elem,*,-999999999999999999999999999999999999999999999999999999999999 => row 2: bad number
1,vert,*,999999999999999999999999999999999999999999999999999999999999 => row 2: bad number
1,vert,0/2, => row 2: bad number
1,elem,0,- => row 2: bad number
1,elem,0,0x1 => row 2: bad number
1,vert,0/2,1.0 => row 2: bad number
1,elem,0,+-1 => row 2: bad number
1,elem,0,1 1 => row 2: bad number
"#;

// A corner as it is written.
fn corner_text(corner: u8) -> &'static str {
    match corner {
        0 => "0",
        1 => "1",
        2 => "2",
        _ => "?",
    }
}

// The kind of a row as it is written.
fn what_text(what: What) -> &'static str {
    match what {
        What::Mark => "mark",
        What::Elem => "elem",
        What::Vert => "vert",
    }
}

// A place as it is written.
fn place_text(alloc: Global, place: Place) -> Result<Vec<u8>, AllocError> {
    let mut text = Vec::new(alloc);
    let wrote = match place {
        Place::EveryLeaf => text.push(b'*').is_ok(),
        Place::Elem(name) => put_name(&mut text, name).is_ok(),
        Place::Corner(name, corner) => {
            put_name(&mut text, name).is_ok()
                && text.push(b'/').is_ok()
                && text
                    .extend_from_slice(corner_text(corner).as_bytes())
                    .is_ok()
        }
    };
    if wrote {
        Ok(text)
    } else {
        Vec::from_slice(alloc, b"?")
    }
}

// What the bytes are read as: the refusal, or how many rounds there are and each row with its
// round.
fn told(rt: &impl Abort, alloc: Global, bytes: &[u8]) -> Result<String, Fail> {
    assert!(rt; bytes.len() <= LIMIT);
    let rounds = match read_marks(alloc, bytes) {
        Ok(rounds) => rounds,
        Err(refusal) => return Ok(format!(in alloc; "{refusal}")?),
    };
    let mut text = format!(in alloc; "{} rounds", rounds.len())?;
    for round in &rounds {
        for row in &round.rows {
            let bytes = place_text(alloc, row.place)?;
            let place = str::from_utf8(bytes.as_slice())?;
            write!(
                text,
                "; {}: row {} {} {place} {}",
                round.number,
                row.row,
                what_text(row.what),
                row.number
            )?;
        }
    }
    Ok(text)
}

// Reads each of the rows as the only one after the header.
fn try_each(rt: &impl Abort, alloc: Global, rows: &str) -> Result<(), Fail> {
    for case in rows.lines() {
        let Some((row, want)) = case.split_once(" => ") else {
            assert!(rt; case.is_empty(), "{case}");
            continue;
        };
        let file = format!(in alloc; "round,what,where,number\n{row}")?;
        let got = told(rt, alloc, file.as_bytes())?;
        assert!(rt; got.as_str() == want, "{row}: {got}");
    }
    Ok(())
}

#[test]
fn a_row_is_read_by_its_four_fields(rt: HostRuntime) -> Result<(), Fail> {
    try_each(&rt, rt.alloc(), ROWS)
}

#[test]
fn a_value_has_a_place_and_a_number_of_its_kind(rt: HostRuntime) -> Result<(), Fail> {
    try_each(&rt, rt.alloc(), VALUE_ROWS)
}

#[test]
fn the_first_refused_row_is_told(rt: HostRuntime) -> Result<(), Fail> {
    let cases = [
        (
            "round,what,where,number\n 1\t, mark ,\t0.01 , 3 ",
            "1 rounds; 1: row 2 mark 0.01 3",
        ),
        (
            "round,what,where,number\n\"1\n\",mark,0,1\n",
            "row 2: bad round",
        ),
        ("", "row 1: bad header"),
        ("\n\r\n", "row 1: bad header"),
        ("round,what,where,number", "0 rounds"),
        (" round ,\twhat,\"where\",number\n", "0 rounds"),
        ("\u{feff}round,what,where,number\n", "0 rounds"),
        (
            "\u{feff}\u{feff}round,what,where,number\n",
            "row 1: bad header",
        ),
        ("Round,what,where,number\n", "row 1: bad header"),
        ("round,what,where\n", "row 1: bad header"),
        ("round,what,where,number,\n", "row 1: bad header"),
        (
            "round,what,where,number\r1,mark,0,1\r\n\n\n3,mark,1.1,2",
            "3 rounds; 1: row 2 mark 0 1; 3: row 3 mark 1.1 2",
        ),
        (
            "round,what,where,number\n1,mark,0,1\n1,mark,*,2\n2,mark,0.0,3\n",
            "2 rounds; 1: row 2 mark 0 1; 1: row 3 mark * 2; 2: row 4 mark 0.0 3",
        ),
        (
            "round,what,where,number\n2,mark,0,1\n1,mark,0,1\n0,mark,0,1\n",
            "row 3: rounds fall",
        ),
        (
            "round,what,where,number\n2,vert,0/1,1\n1,elm,00,x\n",
            "row 3: rounds fall",
        ),
        (
            "round,what,where,number\n1,elem,0,7\n1,vert,0/1,-7\n1,mark,*,-1\n2,elem,*,25\n2,mark,0,25\n2,elem,0/1,1\n",
            "row 6: bad number",
        ),
        (
            "round,what,where,number\n1,elem,0,7\n1,vert,0/1,-7\n1,mark,*,-1\n3,elem,*,25\n",
            "3 rounds; 1: row 2 elem 0 7; 1: row 3 vert 0/1 -7; 1: row 4 mark * -1; 3: row 5 elem * 25",
        ),
        (
            "round,what,where,number\n2,mark,0,25\n1,mark,0,1\n",
            "row 2: bad number",
        ),
        (
            "round,what,where,number\n1,mark,0,1\n\n 1\n",
            "row 3: bad fields",
        ),
        (
            "round,what,where,number\n1,mark,\"0,1\n1,mark,0,1\n",
            "row 2: bad fields",
        ),
    ];
    for (file, want) in cases {
        let got = told(&rt, rt.alloc(), file.as_bytes())?;
        assert!(rt; got.as_str() == want, "{file}: {got}");
    }
    Ok(())
}

#[test]
fn bytes_that_are_no_text_are_refused_by_their_column(rt: HostRuntime) -> Result<(), Fail> {
    let wants = ["bad round", "bad what", "bad where", "bad number"];
    for fields in [["1", "mark", "0", "1"], ["1", "vert", "0/1", "1"]] {
        for (column, want) in wants.iter().enumerate() {
            let mut file = Vec::from_slice(rt.alloc(), b"round,what,where,number\n")?;
            for (at, field) in fields.iter().enumerate() {
                file.extend_from_slice(field.as_bytes())?;
                if at == column {
                    file.push(0xff)?;
                }
                file.push(if at < 3 { b',' } else { b'\n' })?;
            }
            let got = told(&rt, rt.alloc(), file.as_slice())?;
            let all = format!(in rt.alloc(); "row 2: {want}")?;
            assert!(rt; got == all, "{want}: {got}");
        }
    }
    Ok(())
}

#[test]
fn a_file_has_at_most_1048576_rows_after_its_header(rt: HostRuntime) -> Result<(), Fail> {
    let mut file = Vec::from_slice(rt.alloc(), b"round,what,where,number\n")?;
    for _ in 0..1_048_576 {
        file.extend_from_slice(b"1,mark,0,1\n")?;
    }
    assert!(rt; file.len() <= LIMIT);
    let full = read_marks(rt.alloc(), file.as_slice());
    assert!(rt; full.is_ok_and(|rounds| rounds.len() == 1 && rounds[0].rows.len() == 1_048_576));
    file.extend_from_slice(b"x\n")?;
    let got = told(&rt, rt.alloc(), file.as_slice())?;
    assert!(rt; got.as_str() == "row 1048578: too many rows", "{got}");
    Ok(())
}

#[test]
fn a_written_name_is_read_again(rt: HostRuntime) -> Result<(), Fail> {
    let name = ElemName::top(65534).child(0).child(1).child(1);
    let mut text = Vec::from_slice(rt.alloc(), b"at ")?;
    assert!(rt; put_name(&mut text, name).is_ok());
    assert!(rt; text.as_slice() == "at 65534.011".as_bytes());
    assert!(rt; read_name(&text.as_slice()[3..]) == Some(name));
    Ok(())
}

#[test]
fn rows_are_written_as_they_are_read(rt: HostRuntime) -> Result<(), Fail> {
    let name = ElemName::top(0).child_at(false).child_at(true);
    let last = ElemName::top(65_534);
    let mut text = "round,what,where,number\n".as_bytes().to_vec(rt.alloc())?;
    let mark = MarkRow {
        row: 9,
        what: What::Mark,
        place: Place::Elem(name),
        number: -3,
    };
    let elem = MarkRow {
        row: 9,
        what: What::Elem,
        place: Place::EveryLeaf,
        number: 7,
    };
    let vert = MarkRow {
        row: 9,
        what: What::Vert,
        place: Place::Corner(last, 2),
        number: -2_147_483_648,
    };
    put_row(&mut text, 2, &mark)?;
    put_row(&mut text, 2, &elem)?;
    put_row(&mut text, 65_535, &vert)?;
    let lines =
        "round,what,where,number\n2,mark,0.01,-3\n2,elem,*,7\n65535,vert,65534/2,-2147483648\n";
    assert!(rt; text.as_slice() == lines.as_bytes());
    Ok(())
}
