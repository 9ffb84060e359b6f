//! Tests of one table of command lines, with the requests that each program reads in them.

use std::alloc::{AllocError, Global};
use std::env::{Env, FillError};
use std::test::Fail;
use tool_words::{Words, c2po_ask, r2u2_ask};

/// Splits the arguments at single blanks; `~` is an empty argument.
fn parted(alloc: Global, text: &str) -> Result<Words, AllocError> {
    let mut words = Words::new(alloc);
    for word in text.split(' ') {
        words.push(if word == "~" { "" } else { word })?;
    }
    Ok(words)
}

/// Returns the requests that both programs read in the arguments.
fn shown(alloc: Global, text: &str) -> Result<String, Fail> {
    let words = parted(alloc, text)?;
    let r2u2 = r2u2_ask(alloc, &words)?;
    let c2po = c2po_ask(alloc, &words)?;
    Ok(format!(in alloc; "{r2u2:?} # {c2po:?}")?)
}

const TABLE: &str = "--help # Help # Help
-h # Help # Help
a --help # Nothing # Nothing
-h a # Nothing # Nothing
-- -h # Run(Run { kind: Program, style: Each, timed: false, mission: 1099511627776, file: \"-h\", trace: \"-\" }) # Compile(Compile { header: None, out: Some(\"spec.bin\"), table: false, simplify: false, spec: \"-h\" })
--source --runs - t # Run(Run { kind: Spec, style: Runs, timed: false, mission: 1099511627776, file: \"-\", trace: \"t\" }) # Nothing
a --mission-time 007 --timed # Run(Run { kind: Program, style: Each, timed: true, mission: 7, file: \"a\", trace: \"-\" }) # Nothing
--timed a # Run(Run { kind: Program, style: Each, timed: true, mission: 16777216, file: \"a\", trace: \"-\" }) # Nothing
--mission-time=1099511627776 a # Run(Run { kind: Program, style: Each, timed: false, mission: 1099511627776, file: \"a\", trace: \"-\" }) # Nothing
--mission-time=1099511627777 a # Nothing # Nothing
--mission-time=0 a # Nothing # Nothing
--mission-time=+5 a # Nothing # Nothing
--mission-time -5 a # Nothing # Nothing
--mission-time=00000000000005 a # Nothing # Nothing
--runs --runs a # Nothing # Nothing
--demo 4294967295,10000000 # Demo { seed: 4294967295, rows: 10000000 } # Nothing
--demo=0,0000000001 # Demo { seed: 0, rows: 1 } # Nothing
--demo 4294967296,1 # Nothing # Nothing
--demo 1,0 # Nothing # Nothing
--demo 1 # Nothing # Nothing
--demo 1,2,3 # Nothing # Nothing
--demo 1,1 a # Nothing # Nothing
--demo 1,1 --timed # Nothing # Nothing
-oa b # Nothing # Compile(Compile { header: None, out: Some(\"a\"), table: false, simplify: false, spec: \"b\" })
-o=a b # Nothing # Compile(Compile { header: None, out: Some(\"a\"), table: false, simplify: false, spec: \"b\" })
--table b --header h --simplify # Nothing # Compile(Compile { header: Some(\"h\"), out: None, table: true, simplify: true, spec: \"b\" })
--table -o a b # Nothing # Compile(Compile { header: None, out: Some(\"a\"), table: true, simplify: false, spec: \"b\" })
--upgrade b # Nothing # Upgrade { out: \"spec.bin\", program: \"b\" }
--upgrade b --output a # Nothing # Upgrade { out: \"a\", program: \"b\" }
--show b # Nothing # Show { out: None, program: \"b\" }
--show -o a b # Nothing # Show { out: Some(\"a\"), program: \"b\" }
--show --upgrade b # Nothing # Nothing
--upgrade --table b # Nothing # Nothing
--show --header h b # Nothing # Nothing
-o a # Nothing # Nothing
~ # Run(Run { kind: Program, style: Each, timed: false, mission: 1099511627776, file: \"\", trace: \"-\" }) # Compile(Compile { header: None, out: Some(\"spec.bin\"), table: false, simplify: false, spec: \"\" })";

#[test]
fn words_ask(rt: HostRuntime) -> Result<(), Fail> {
    for row in TABLE.lines() {
        let Some((text, wanted)) = row.split_once(" # ") else {
            continue;
        };
        let got = shown(rt.alloc(), text)?;
        assert_eq!(rt; got.as_str(), wanted, "at {text}");
    }
    Ok(())
}

/// Arguments in memory, with the program's name first.
#[derive(Clone, Copy)]
struct Known<'a> {
    arguments: &'a [&'a [u8]],
}

impl Env for Known<'_> {
    fn arg(&self, i: usize, buf: &mut [u8]) -> Result<usize, FillError> {
        let Some(argument) = self.arguments.get(i) else {
            return Err(FillError::NotPresent);
        };
        let Some(front) = buf.get_mut(..argument.len()) else {
            return Err(FillError::TooLong);
        };
        front.copy_from_slice(argument);
        Ok(argument.len())
    }

    fn var(&self, _name: &str, _buf: &mut [u8]) -> Result<usize, FillError> {
        Err(FillError::NotPresent)
    }

    fn var_at(&self, _i: usize, _buf: &mut [u8]) -> Result<usize, FillError> {
        Err(FillError::NotPresent)
    }
}

#[test]
fn words_are_the_arguments(rt: HostRuntime) -> Result<(), Fail> {
    let long = [b'x'; 5000];
    let arguments: [&[u8]; 7] = [b"r2u2", b"--source", b"", b"a b", &long, b"t", b"u"];
    let known = Known {
        arguments: &arguments,
    };
    let words = tool_words::words_of(rt.alloc(), &known)?;
    assert_eq!(rt; words.len(), 6);
    for i in 0..words.len() {
        let Some(argument) = arguments.get(i + 1) else {
            break;
        };
        assert_eq!(rt; words.get(i).as_bytes(), *argument, "at {i}");
    }
    Ok(())
}
