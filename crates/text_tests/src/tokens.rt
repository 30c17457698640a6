//! The tokens of short texts, each with its places.

use std::alloc::{AllocError, Global};
use std::test::Fail;
use text_format::{Kind, LexError, tokens};

/// The letter of a kind in a row.
fn letter(kind: Kind) -> char {
    match kind {
        Kind::Word => 'W',
        Kind::Value => 'V',
        Kind::Alias => 'A',
        Kind::Symbol => 'S',
        Kind::Block => 'B',
        Kind::TypeWord => 'T',
        Kind::Shaped => 'H',
        Kind::Number => 'N',
        Kind::Quoted => 'Q',
        Kind::Mark => 'M',
    }
}

/// The tokens of a short text, or its first fault.
fn described(alloc: Global, text: &str) -> Result<String, AllocError> {
    let mut line = String::new(alloc);
    if text.len() > 100 {
        return Ok(line);
    }
    match tokens(alloc, text.as_bytes()) {
        Ok(list) => {
            for span in list.iter() {
                let kind = letter(span.kind);
                let one = format!(in alloc; "{kind}{}-{} ", span.start, span.end)?;
                line.push_str(one.as_str())?;
            }
            Ok(line)
        }
        Err(LexError::Byte(at)) => format!(in alloc; "byte {at}"),
        Err(LexError::Unclosed(at)) => format!(in alloc; "unclosed {at}"),
        Err(LexError::Memory) => Err(AllocError),
    }
}

/// Rows between `~`: the tokens, and behind `|` the text.
const ROWS: &str =
    "|~| \t\r\n~|// \u{ff} \" tensor<~W0-1 W5-7 |a//b\n_c~byte 0|/~W0-9 W10-13 |func.func a$1~byte 0|.a~\
V0-3 M3-4 |%a->~V0-2 |%0~byte 0|%~byte 0|% a~V0-4 V5-10 W10-11 |%r#0 %r#12x~byte 2|%r#~V0-2 A2-4 |%r#x~byte 3|%r #0~\
A0-4 S5-7 B8-12 T13-30 |#a.b @f ^bb0 !transform.any_op~byte 0|@0~byte 0|^-~byte 2|a \u{80}~byte 1|a;~\
H0-13 |tensor<3xi32>~H0-12 M12-13 |vector<8xi1>>~H0-8 |tensor<>~unclosed 15|tensor<3x i32> \"~H0-14 |tensor<3x i32>~\
unclosed 1| tensor<3xi32\n>~unclosed 0|tensor<~W0-6 M7-8 N8-9 M9-10 |tensor <3>~W0-6 |tensor~W0-7 M7-8 N8-9 M9-10 |tensors<3>~\
W0-8 M8-9 N9-10 M10-11 |a.tensor<3>~N0-2 W2-3 M3-4 N4-5 |12a-3~Q0-10 Q10-12 |\"parallel\"\"\"~byte 2|\"a\\\"b\"~\
byte 2|\"a\tb\"~unclosed 0|\"a\tb~unclosed 0|\"a\n\"~M0-1 M1-2 M2-3 M3-4 M4-5 M5-6 M6-7 M7-8 M8-9 |(){}[]<>,~\
M0-1 M1-2 M2-4 M4-5 M5-6 M6-7 |:=->-+*~V0-3 |%a-~unclosed 4|%a->\"b~V0-3 M3-4 Q4-7 W7-13 |%a->\"b\"tensor~\
unclosed 7|%a->\"b\"tensor<~V0-3 M3-4 Q4-7 H7-17 |%a->\"b\"tensor<i1>";

#[test]
fn tokens_of_short_texts(rt: HostRuntime) -> Result<(), Fail> {
    for row in ROWS.split('~') {
        let (want, text) = row.split_once('|').ok_or("a row")?;
        let found = described(rt.alloc(), text)?;
        assert!(rt; found.as_str() == want, "{row}: {found}");
    }
    Ok(())
}
