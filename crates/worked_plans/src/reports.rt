//! Worked rows: refusals and verdicts as texts.
use deck_check::DeckFault;
use deck_lines::{LineFault, LineKind};
use plan_certificate::Verdict;
use report_text::{
    Judged, Refusal, write_heading, write_keys, write_malformed, write_refusal, write_verdict,
};
use std::test::Fail;

fn fault(number: u64, a: u64, b: u64, c: u64) -> Refusal {
    Refusal::Deck(DeckFault { number, a, b, c })
}

#[test]
fn refusals_have_names_and_numbers(rt: HostRuntime) -> Result<(), Fail> {
    let mut text = Vec::new(rt.alloc());
    write_refusal(&fault(6, 1, 0, 0), &mut text)?;
    write_refusal(&fault(29, 2, 15, 12), &mut text)?;
    let wide = Refusal::Wide {
        case: 1,
        year: 3,
        number: 1_185_921,
    };
    write_refusal(&wide, &mut text)?;
    let many = Refusal::Many {
        case: 1,
        year: 1,
        number: 501,
    };
    write_refusal(&many, &mut text)?;
    assert_eq!(rt;
        text.as_slice(),
        b"REFUSED 6 NOLOAD 1 0 0\nREFUSED 29 STEPWATER 2 15 12\nREFUSED 25 TOOWIDE 1 3 1185921\nREFUSED 26 TOOMANY 1 1 501\n".as_slice()
    );
    Ok(())
}

#[test]
fn a_script_has_its_headings_and_its_end(rt: HostRuntime) -> Result<(), Fail> {
    let mut text = Vec::new(rt.alloc());
    write_heading(64, &mut text)?;
    let word = LineFault {
        kind: LineKind::Word,
        column: 1,
    };
    write_malformed(13, &word, &mut text)?;
    write_keys(3, &mut text)?;
    assert_eq!(rt;
        text.as_slice(),
        b"PLAN 64\nMALFORMED 13 WORD 1\nKEYS 3\n".as_slice()
    );
    Ok(())
}

#[test]
fn certificates_are_said_to_hold_or_not(rt: HostRuntime) -> Result<(), Fail> {
    let mut text = Vec::new(rt.alloc());
    write_verdict(1, 1, &Judged::Said(Verdict::Yes), &mut text)?;
    write_verdict(2, 8, &Judged::Said(Verdict::No(7)), &mut text)?;
    assert_eq!(rt;
        text.as_slice(),
        b"CHECK 1 CASE 1 YES\nCHECK 2 CASE 8 NO 7\n".as_slice()
    );
    Ok(())
}

#[test]
fn faults_of_form_are_said_with_their_line(rt: HostRuntime) -> Result<(), Fail> {
    let mut text = Vec::new(rt.alloc());
    write_verdict(3, 5, &Judged::Form(0), &mut text)?;
    write_verdict(64, 1, &Judged::Form(12), &mut text)?;
    assert_eq!(rt;
        text.as_slice(),
        b"CHECK 3 CASE 5 NO 0 AT 0\nCHECK 64 CASE 1 NO 0 AT 12\n".as_slice()
    );
    Ok(())
}

#[test]
fn refused_checks_have_names_and_numbers(rt: HostRuntime) -> Result<(), Fail> {
    let mut text = Vec::new(rt.alloc());
    let wide = Refusal::Wide {
        case: 2,
        year: 1,
        number: 1_771_561,
    };
    write_verdict(4, 2, &Judged::Refused(wide), &mut text)?;
    write_verdict(5, 1, &Judged::Refused(fault(1, 0, 0, 0)), &mut text)?;
    assert_eq!(rt;
        text.as_slice(),
        b"CHECK 4 CASE 2 REFUSED 25 TOOWIDE 2 1 1771561\nCHECK 5 CASE 1 REFUSED 1 NOYEARS 0 0 0\n".as_slice()
    );
    Ok(())
}

#[test]
fn a_verdict_keeps_the_text_before_it(rt: HostRuntime) -> Result<(), Fail> {
    let mut text = Vec::new(rt.alloc());
    text.extend_from_slice(b"CASE 1\n")?;
    write_verdict(1, 1, &Judged::Said(Verdict::No(2)), &mut text)?;
    assert_eq!(rt;
        text.as_slice(),
        b"CASE 1\nCHECK 1 CASE 1 NO 2\n".as_slice()
    );
    Ok(())
}
