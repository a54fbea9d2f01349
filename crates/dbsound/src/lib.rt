//! A file is sound exactly where no fault of it is reported.
//!
//! `dbformat` says twice when a file is good. Its *report* (specs/Report) has the faults that are found along the survey of
//! the file: of its header, of each page, reference, key and row of the schema, and at the end. *Sound* (specs/Sound) knows
//! no survey: finite terms, which are trees with their overflow chains and a freelist, account for each page once and keep
//! every rule. This crate proves that the two agree. A theorem is the contract of a function with an empty body; its
//! statement is in specs/, and its proof in proofs/, where each folder has a file of its name that lists what is in it.
//!
//! **Clean means sound** (proofs/FaultlessSurveys, then FaultlessFiles). If no fault is reported, no reference is
//! refused. So the survey is all that its starts lead to, and below a visit are the visit itself and what is below each
//! reference of its page: that is `surveys_are_whole`. By recursion on how many pages are below a visit, a chain begins
//! at each overflow page and a tree at each page of a tree: that is `visits_begin_terms`. The keys of a cell bound
//! those below its children, as no key is out of order; all leaves of a start have one depth, and none is too deep. A
//! tree at each root, the chain of trunks, the rows that the schema's payloads spell, and what the end says of all
//! pages are then the parts of a sound file.
//!
//! **Sound means clean** (proofs/TermVisits, TermKeys and TermRows, then SoundFiles). The visits of a term are its pages,
//! each at its address, by recursion on the term; each property of them is an induction of its own. They are all that the
//! first of them leads to, their keys are in order, leaves have one depth, and the rows that are read along them are those
//! that the payloads spell. As each page has one use, the visits of all terms are the survey, and no reference is refused.
//! Then no test reports a fault: none of a page by itself, of two pages of one tree, of the schema's rows, or at the end.
//!
//! What is known of surveys under any rules is in `dbsurvey`, and what is known of the pages, cells and visits of any
//! file is in `dbformat`.
#![tactic(auto)]

ghost use Rattle.std.specs.Prelude.{ℕ, List, pos, negsuc};
ghost use Rattle.dbformat.specs.Faults.{fault};
ghost use Rattle.dbformat.specs.Samples.{long_row_file};
ghost use Rattle.dbformat.specs.Sound.{Sound};
ghost use Rattle.dbformat.specs.declared.FaultCode.TheVariants.{H01, H08, H09, H10, L01, M01, M02, N01, P09, S02, S03, T06};
ghost use Rattle.dbformat.specs.declared.Refusal.TheVariants.{Magic};
ghost use Rattle.dbsound.specs.Broken.{IsRefusedBeside, FailsBeside, wrong_magic, unknown_version, false_fragment, numeric_name};
ghost use Rattle.dbsound.specs.Broken.{unused_page, false_free_page, no_encoding, one_row, two_leaves};
ghost use Rattle.dbsound.specs.Broken.{one_trunk, no_table, mapped_trunk, early_root, late_root};
ghost use Rattle.dbsound.specs.Samples.{index_file, mapped_file};
ghost use Rattle.dbsound.specs.Soundness.{HasItsUses, IsSoundByFaults, IsSoundByAnswer, IsSoundByOk, IsSoundByVerdict};
ghost use Rattle.dbsound.specs.Surveys.{IsByItsStarts, IsByItsLinks, HasChainsBelow, HasTreesBelow, HasWholeTrees};

pub mod statistics;

/// Clean is sound: a file is sound exactly where it is read and no fault of it is reported. So it is where a command
/// answers that the file is clean, where the verdict on a file that is read is clean, and where what a check writes is
/// the line `ok`. The survey of a sound file has exactly the pages of its terms, each once, in the order of the terms and
/// with their uses.
pub fn clean_is_sound()
    ensures faults { (file : List ℕ) → IsSoundByFaults file }
    ensures answer { (file : List ℕ) → IsSoundByAnswer file }
    ensures verdict { (file : List ℕ) → IsSoundByVerdict file }
    ensures ok { (file : List ℕ) → IsSoundByOk file }
    ensures uses { (file : List ℕ) → HasItsUses file }
{}

/// Each rule of a sound file can fail alone. Beside a sound file there is one that differs from it by a byte, by a
/// page, or by the order of two pages, and that is not read, or has only the fault of this rule; so it is not sound.
/// Two rules have no file here, since only large files break them: that the schema's tree is at most 20 pages high, and
/// that the schema has at most 65536 roots.
pub fn each_rule_can_fail_alone()
    ensures is_read { IsRefusedBeside long_row_file wrong_magic Magic }
    ensures header { FailsBeside long_row_file unknown_version (fault H01 1 18 (pos 3)) }
    ensures schema { FailsBeside long_row_file false_fragment (fault P09 1 0 (pos 0)) }
    ensures spelled { FailsBeside (one_row 0) (one_row 255) (fault S03 1 0 (negsuc 0)) }
    ensures named { FailsBeside long_row_file numeric_name (fault S02 1 0 (pos 1)) }
    ensures trees { FailsBeside (two_leaves 6) (two_leaves 5) (fault T06 4 0 (pos 5)) }
    ensures freelist { FailsBeside (one_trunk 0) (one_trunk 127) (fault L01 2 0 (pos 127)) }
    ensures once { FailsBeside long_row_file unused_page (fault N01 4 0 (pos 0)) }
    ensures freelist_size { FailsBeside long_row_file false_free_page (fault H10 1 0 (pos 0)) }
    ensures greatest { FailsBeside (no_table 1) (no_table 2) (fault H09 1 0 (pos 1)) }
    ensures format { FailsBeside long_row_file no_encoding (fault H08 1 4 (pos 0)) }
    ensures mapped { FailsBeside (mapped_trunk 2) (mapped_trunk 5) (fault M01 3 5 (pos 0)) }
    ensures roots_first { FailsBeside early_root late_root (fault M02 4 0 (pos 3)) }
{}

/// Files of other shapes are sound, too: one whose tree is an index's, and one with a pointer map that has an entry of a root,
/// of pages that are no root, and of a first and a later overflow page.
pub fn other_shapes_are_sound()
    ensures index { Sound index_file }
    ensures mapped { Sound mapped_file }
{}

/// Where pages and references have no fault, a survey is what is below its starts, one after another, and below each
/// visit is what is below each reference of its page.
pub fn surveys_are_whole()
    ensures starts { (file : List ℕ) → IsByItsStarts file }
    ensures links { (file : List ℕ) → IsByItsLinks file }
{}

/// Where pages and references have no fault, a chain begins at each overflow page that is visited, and a tree at each
/// page of a tree: their pages are those below it, each in its role, in the order of their addresses. A tree's payloads
/// are those of the leaves below it. That of a root is at most 20 pages high.
pub fn visits_begin_terms()
    ensures chains { (file : List ℕ) → HasChainsBelow file }
    ensures trees { (file : List ℕ) → HasTreesBelow file }
    ensures roots { (file : List ℕ) → HasWholeTrees file }
{}
