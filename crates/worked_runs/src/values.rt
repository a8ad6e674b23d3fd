//! Values of vertices and of leaves through whole runs.
use crate::files::{SQUARE, VALUED_SQUARE, VALUED_TRIANGLE, VALUED_TURNED_SQUARE};
use crate::run::ends_in_values;
use std::test::Fail;

#[test]
fn values_are_halved_and_summed(rt: HostRuntime) -> Result<(), Fail> {
    let cases = [
        (VALUED_SQUARE, "", "3\n0\n-4\n0\n", "-7\n0\n"),
        (
            VALUED_SQUARE,
            "1,mark,0,1\n",
            "3\n0\n-4\n0\n-1\n",
            "-4\n-3\n0\n0\n",
        ),
        (
            VALUED_SQUARE,
            "1,mark,0,1\n2,mark,*,-1\n",
            "3\n0\n-4\n0\n",
            "-7\n0\n",
        ),
        (
            VALUED_SQUARE,
            "1,mark,*,2\n2,mark,*,-2\n",
            "3\n0\n-4\n0\n",
            "-7\n0\n",
        ),
        (
            VALUED_SQUARE,
            "1,mark,*,2\n2,mark,*,-1\n",
            "3\n0\n-4\n0\n-1\n",
            "-4\n-3\n0\n0\n",
        ),
        (
            VALUED_SQUARE,
            "1,mark,0,2\n",
            "3\n0\n-4\n0\n-1\n-2\n1\n",
            "-2\n-2\n-2\n-1\n0\n0\n",
        ),
        (
            VALUED_TURNED_SQUARE,
            "1,mark,0,1\n",
            "1\n10\n100\n1000\n50\n550\n",
            "5\n6\n-2\n-1\n-2\n",
        ),
        (
            VALUED_TRIANGLE,
            "1,mark,0,1\n",
            "1\n2\n3\n4\n1\n",
            "18014398509481984\n18014398509481984\n",
        ),
    ];
    for (macro_text, rows, vertices, elements) in cases {
        let ends = ends_in_values(&rt, rt.alloc(), macro_text, rows, vertices, elements)?;
        assert!(rt; ends, "{rows}");
    }
    Ok(())
}

#[test]
fn rows_set_values_before_the_round_is_done(rt: HostRuntime) -> Result<(), Fail> {
    let cases = [
        (
            SQUARE,
            "1,vert,0/2,9\n1,elem,1,5\n1,mark,0,1\n",
            "0\n9\n0\n0\n0\n",
            "0\n0\n2\n3\n",
        ),
        (
            SQUARE,
            "1,mark,0,1\n1,elem,0,7\n1,vert,0/0,9\n",
            "0\n0\n9\n0\n4\n",
            "3\n4\n0\n0\n",
        ),
        (
            SQUARE,
            "1,mark,0,1\n2,elem,*,-1\n2,vert,*,-1\n",
            "-1\n-1\n-1\n-1\n-1\n",
            "-1\n-1\n-1\n-1\n",
        ),
        (
            SQUARE,
            "1,mark,0,1\n2,elem,0.0,5\n2,elem,1.1,-8\n2,mark,*,-1\n",
            "0\n0\n0\n0\n",
            "5\n-8\n",
        ),
        (
            VALUED_SQUARE,
            "1,mark,0,1\n2,elem,0.0,5\n2,mark,0.0,1\n",
            "3\n0\n-4\n0\n-1\n-2\n",
            "2\n3\n-3\n0\n0\n",
        ),
        (VALUED_SQUARE, "3,elem,0,1\n", "3\n0\n-4\n0\n", "1\n0\n"),
    ];
    for (macro_text, rows, vertices, elements) in cases {
        let ends = ends_in_values(&rt, rt.alloc(), macro_text, rows, vertices, elements)?;
        assert!(rt; ends, "{rows}");
    }
    Ok(())
}

#[test]
fn of_all_rows_that_name_a_value_the_last_wins(rt: HostRuntime) -> Result<(), Fail> {
    let cases = [
        (
            SQUARE,
            "1,elem,*,7\n1,vert,*,-5\n",
            "-5\n-5\n-5\n-5\n",
            "7\n7\n",
        ),
        (
            SQUARE,
            "1,elem,*,7\n1,elem,0,1\n1,vert,*,-5\n1,vert,1/2,4\n",
            "-5\n-5\n-5\n4\n",
            "1\n7\n",
        ),
        (
            SQUARE,
            "1,elem,0,1\n1,elem,*,7\n1,vert,1/2,4\n1,vert,*,-5\n",
            "-5\n-5\n-5\n-5\n",
            "7\n7\n",
        ),
        (
            SQUARE,
            "1,vert,0/0,1\n1,vert,1/1,2\n1,elem,1,3\n1,elem,1,4\n",
            "0\n0\n2\n0\n",
            "0\n4\n",
        ),
        (
            SQUARE,
            "1,vert,1/1,2\n1,vert,0/0,1\n",
            "0\n0\n1\n0\n",
            "0\n0\n",
        ),
        (
            SQUARE,
            "1,elem,0,25\n1,elem,*,1\n1,vert,1/2,-2147483648\n",
            "0\n0\n0\n-2147483648\n",
            "1\n1\n",
        ),
        (
            SQUARE,
            "1,mark,0,1\n1,elem,0,0\n1,elem,*,-1\n1,vert,*,2\n",
            "2\n2\n2\n2\n2\n",
            "-1\n0\n-1\n0\n",
        ),
        (
            SQUARE,
            "1,elem,*,2147483648\n1,elem,1,-2147483648\n2,mark,0,1\n",
            "0\n0\n0\n0\n0\n",
            "1073741824\n1073741824\n-1073741824\n-1073741824\n",
        ),
    ];
    for (macro_text, rows, vertices, elements) in cases {
        let ends = ends_in_values(&rt, rt.alloc(), macro_text, rows, vertices, elements)?;
        assert!(rt; ends, "{rows}");
    }
    Ok(())
}

#[test]
fn a_vertex_keeps_its_value_until_it_goes(rt: HostRuntime) -> Result<(), Fail> {
    let cases = [
        (
            VALUED_SQUARE,
            "1,mark,0,1\n2,vert,0.0/2,100\n",
            "3\n0\n-4\n0\n100\n",
            "-4\n-3\n0\n0\n",
        ),
        (
            VALUED_SQUARE,
            "1,mark,0,1\n2,vert,0.0/2,100\n3,mark,0.0,1\n",
            "3\n0\n-4\n0\n100\n-2\n",
            "-2\n-2\n-3\n0\n0\n",
        ),
        (
            VALUED_SQUARE,
            "1,mark,0,1\n2,vert,0.0/2,100\n3,mark,*,-1\n4,mark,0,1\n",
            "3\n0\n-4\n0\n-1\n",
            "-4\n-3\n0\n0\n",
        ),
        (
            VALUED_SQUARE,
            "1,mark,0,1\n2,vert,*,6\n3,mark,*,-1\n",
            "6\n6\n6\n6\n",
            "-7\n0\n",
        ),
        (
            VALUED_TRIANGLE,
            "1,vert,*,9\n",
            "9\n9\n3\n9\n",
            "36028797018963968\n",
        ),
        (
            VALUED_TRIANGLE,
            "1,mark,0,1\n2,vert,*,9\n2,elem,*,1\n",
            "9\n9\n3\n9\n9\n",
            "1\n1\n",
        ),
    ];
    for (macro_text, rows, vertices, elements) in cases {
        let ends = ends_in_values(&rt, rt.alloc(), macro_text, rows, vertices, elements)?;
        assert!(rt; ends, "{rows}");
    }
    Ok(())
}
