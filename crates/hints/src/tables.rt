//! The forms that have hints, by the rule that is told of them. In a pattern a small letter stands
//! for some characters (`pattern.rt`).

ghost use Rattle.std.specs.Prelude.{◌≡◌, map};
ghost use Rattle.hints.specs.Forms.{first_hint, forms_of, has};
ghost use Rattle.hints.specs.Rows.{form_of};

use crate::hint::Hint;
use crate::pattern::holds_any;
use meaning::refusal::Rule;

/// A text that has one of the first patterns and one of the second has this hint.
pub struct Row(&'static [&'static [u8]], &'static [&'static [u8]], Hint);

impl Row {
    /// Whether a text has them.
    fn fits(&self, text: &[u8]) -> bool
        ensures { result ≡ has text.now (form_of self.now) }
    {
        holds_any(text, self.0) && holds_any(text, self.1)
    }
}

/// Rows, each by its first patterns, its second ones and its hint.
macro_rules! rows {
    ($([$($front:literal)*] [$($inner:literal)*] $hint:ident;)*) => {
        &[$(Row(&[$($front),*], &[$($inner),*], Hint::$hint)),*]
    };
}

/// C1: characters that aren't FORTRAN's.
const CHARACTERS: &[Row] = rows! {
    [b"b!"] [b""] CommentMark;
    [b""] [b"t"] Tab;
};

/// C2 and C3: columns 1 to 5.
const LABELS: &[Row] = rows! {
    [b"b!"] [b""] CommentMark;
    [b"b#"] [b""] Preprocessor;
    [b"bDeeee"] [b""] DebugLine;
    [b"bl" b"bel" b"beel" b"beeel" b"beeeel"] [b""] Columns;
};

/// C4: column 6.
const MARKS: &[Row] = rows! {
    [b"beeeeel"] [b""] Columns;
};

/// C6: apostrophes that don't pair.
const APOSTROPHES: &[Row] = rows! {
    [b""] [b"ndH" b"nddH"] Hollerith;
    [b""] [b"!"] Comment;
    [b""] [b"q"] Quotes;
    [b""] [b"zt"] Behind72;
};

/// G1: texts without a reading.
const UNREAD: &[Row] = rows! {
    [b""] [b"ndH" b"nddH"] Hollerith;
    [b"bFORMAT("] [b"dH"] Hollerith;
    [b""] [b"!"] Comment;
    [b""] [b"q"] Quotes;
    [b""] [b"zt"] Behind72;
    [b"bFORMAT("] [b""] Format;
    [b""] [b"&"] Ampersand;
    [b""] [b";"] Semicolon;
    [b""] [b"::"] Colons;
    [b""] [b"==" b"/=" b"<" b"d>" b"l>" b")>"] Relation;
    [b""] [b"_" b"$"] NameCharacter;
    [b"bINTEGERFUNCTION" b"bLOGICALFUNCTION" b"bINTEGER*dFUNCTION" b"bLOGICAL*dFUNCTION"] [b""]
        Function;
    [b"bINTEGER*" b"bLOGICAL*" b"bIMPLICITINTEGER*" b"bIMPLICITLOGICAL*"] [b""] Length;
    [b"bINTEGER" b"bLOGICAL"] [b"/z"] InitialValue;
    [b"aPARAMETERl"] [b""] Parameter;
    [b"bWRITE("] [b",*)" b"FMT=*" b"bWRITE(d)" b"bWRITE(*)"] ListDirected;
    [b"bWRITE("] [b",ERR=" b",IOSTAT=" b",REC=" b",ADVANCE="] Control;
    [b"bIF("] [b")PRINT*" b")WRITE(*,*)" b")WRITE(6,*)"] ListDirected;
    [b"bIF("] [b")CALL"] Subroutine;
    [b"bIF("] [b")RETURNz"] Return;
    [b"bIF("] [b")READ("] Read;
    [b"bIF("] [b")EXITz" b")CYCLEz"] Leave;
    [b"bIF("] [b")GOTOl"] Assigned;
    [b"bEXITz" b"bCYCLEz"] [b""] Leave;
    [b"bGOTOl"] [b""] Assigned;
    [b"bDOz" b"bDOFOREVERz"] [b""] Forever;
    [b"bENDPROGRAM"] [b""] End;
    [b"bPROGRAM"] [b")z"] Program;
    [b"bTYPE*"] [b""] ListDirected;
    [b"bACCEPT"] [b""] Read;
    [b"bINCLUDE"] [b""] Include;
    [b""] [b")''" b",''z" b",''," b"=''z" b".''" b"/''"] Characters;
    [b""] [b"m.d" b"nd.n" b"ndd.n" b"nddd.n" b"ndddd.n" b"d.xd" b"d.xsd" b"ndxd" b"nddxd" b"ndxsd"
        b"nddxsd"] RealConstant;
};

/// G2: statements that are left out.
const LEFT_OUT: &[Row] = rows! {
    [b"bREALFUNCTION" b"bREAL*dFUNCTION" b"bDOUBLEPRECISIONFUNCTION" b"bFUNCTION"] [b""] Function;
    [b"bREAL" b"bDOUBLEPRECISION" b"bCOMPLEX" b"bIMPLICITREAL" b"bIMPLICITDOUBLEPRECISION" b"bIMPLICITCOMPLEX"] [b""] Real;
    [b"bPRINT*" b"bWRITE("] [b""] ListDirected;
    [b"bREAD"] [b""] Read;
    [b"bOPEN" b"bCLOSE" b"bINQUIRE" b"bBACKSPACE" b"bREWIND" b"bENDFILE"] [b""] Files;
    [b"bCALLEXITz"] [b""] Exit;
    [b"bSUBROUTINE" b"bCALL" b"bENTRY"] [b""] Subroutine;
    [b"bRETURN"] [b""] Return;
    [b"bCOMMON"] [b""] Common;
    [b"bEQUIVALENCE"] [b""] Equivalence;
    [b"bSAVE" b"bEXTERNAL" b"bINTRINSIC" b"bBLOCKDATA"] [b""] Needless;
    [b"bCHARACTER" b"bIMPLICITCHARACTER"] [b""] Characters;
    [b"bASSIGN"] [b""] Assigned;
    [b"bPAUSE"] [b""] Pause;
};

/// N1 and K6: a FUNCTION statement reads as a type statement.
const UNITS: &[Row] = rows! {
    [b"bINTEGERFUNCTION" b"bLOGICALFUNCTION"] [b""] Function;
};

/// K3: names that are REAL.
const NAMES: &[Row] = rows! {
    [b"bINTEGERFUNCTION" b"bLOGICALFUNCTION"] [b""] Function;
    [b"aPARAMETERl"] [b""] Parameter;
    [b"aIF("] [b")THENl"] Then;
    [b"aDOd"] [b","] Declare;
    [b"aDOd"] [b""] Limits;
    [b""] [b""] Declare;
};

/// K11: units and formats.
const FORMATS: &[Row] = rows! {
    [b"bFORMAT("] [b"dH"] Hollerith;
    [b"bFORMAT("] [b"q"] Quotes;
    [b"bFORMAT("] [b"Fd" b"Ed" b"Dd" b"Gd"] RealEdit;
    [b"bFORMAT("] [b"Ad" b"An"] Characters;
    [b"bFORMAT("] [b"Td"] TabEdit;
    [b"bFORMAT("] [b"Xd" b"Xl"] EditComma;
    [b"bWRITE(u"] [b""] Unit;
};

/// K13: functions that aren't there.
const FUNCTIONS: &[Row] = rows! {
    [b""] [b"nFLOAT(" b"nREAL(" b"nDBLE(" b"nSNGL(" b"nINT(" b"nIFIX("] Conversion;
    [b""] [b"nSQRT("] Root;
};

/// The forms of a rule.
pub fn rows_of(rule: Rule) -> &'static [Row]
    ensures { map form_of result.now ≡ forms_of rule }
{
    match rule {
        Rule::C1 => CHARACTERS,
        Rule::C2 | Rule::C3 => LABELS,
        Rule::C4 => MARKS,
        Rule::C6 => APOSTROPHES,
        Rule::G1 => UNREAD,
        Rule::G2 => LEFT_OUT,
        Rule::N1 | Rule::K6 => UNITS,
        Rule::K3 => NAMES,
        Rule::K11 => FORMATS,
        Rule::K13 => FUNCTIONS,
        _ => &[],
    }
}

/// The hint of the first row that a text fits.
pub fn hint_for(rows: &[Row], text: &[u8]) -> Option<Hint>
    ensures { result ≡ first_hint (map form_of rows.now) text.now }
{
    for row in rows {
        if row.fits(text) {
            return Some(row.2);
        }
    }
    None
}
