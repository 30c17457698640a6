//! Maps at the front of a text, their canonical texts, and why there is none.

use affine_text::{MapError, map_text, parse_map};
use std::alloc::{AllocError, Global};
use std::test::Fail;

/// Where the map at the front of a short text ends, and its canonical text; or its fault.
fn described(alloc: Global, text: &str) -> Result<String, AllocError> {
    if text.len() > 100 {
        return Ok(String::new(alloc));
    }
    match parse_map(alloc, text.as_bytes()) {
        Ok((map, end)) => {
            let Ok(written) = map_text(alloc, &map) else {
                return Err(AllocError);
            };
            let canonical = String::from_utf8_lossy(alloc, written.as_slice())?;
            format!(in alloc; "{end} {canonical}")
        }
        Err(MapError::BadText(at)) => format!(in alloc; "text {at}"),
        Err(MapError::Form(at)) => format!(in alloc; "form {at}"),
        Err(MapError::Range(at)) => format!(in alloc; "range {at}"),
        Err(MapError::Memory) => Err(AllocError),
    }
}

/// Rows between `~`: the end and the canonical text, or the fault, and behind `|` the text.
const ROWS: &str = "20 affine_map<() -> ()>|affine_map<() -> ()>~\
45 affine_map<(d0) -> (-d0, d0 * 3, d0 * 3 - 7)>|affine_map<(d0) -> (-d0, d0 * 3, 3 * d0 - 7)>@@~\
33 affine_map<(d0, d1) -> (d0 + d1)>|affine_map<(d0)[s0] -> (d0 + s0)>~\
46 affine_map<(d0) -> (2)>|affine_map<(i)[] -> (- - i * 2 - (i - 1) * 2)> x~\
45 affine_map<(d0, d1) -> (d0)>|affine_map // to\n< (i,j)\t-> (j + i - j * 1) >~\
53 affine_map<(d0) -> (d0 * 2147483648 - 2147483648)>|affine_map<(d0) -> (d0 * 0002147483648 - 2147483648)>~\
39 affine_map<(d0, d1) -> (d1)>|affine_map<(a, mod) -> (mod * 2 - mod)>~\
38 affine_map<(d0, d1) -> (d0 * -3 - d1 + 1)>|affine_map<(a, b) -> (1 - b + a * -3)>~\
67 affine_map<(d0, d1) -> (-d0 + d1 + 1, d0 * -3 - d1 * 2 - 7, 0, -5)>|affine_map<(d0, d1) -> (-d0 + d1 + 1, d0 * -3 - d1 * 2 - 7, 0, -5)>~\
text 16|affine_map<(d0) /* */ -> (d0)>~text 0|~form 23|affine_map<(d0) -> (d0 mod 2)>~\
range 39|affine_map < // all\n(d0) -> (d0 - d0 * 3000000000000000000000000)>";

#[test]
fn maps_of_short_texts(rt: HostRuntime) -> Result<(), Fail> {
    for row in ROWS.split('~') {
        let (want, text) = row.split_once('|').ok_or("a row")?;
        let found = described(rt.alloc(), text)?;
        assert!(rt; found.as_str() == want, "{row}: {found}");
    }
    Ok(())
}
