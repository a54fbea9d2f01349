// The colours of the picture. They were searched for by computation, so that any two differ for normal sight and for that of
// deuteranopes and protanopes: tools/colours.py says by how much.
ghost use Rattle.std.specs.Prelude.{◌≡◌};
ghost use Rattle.dbpicture.specs.Marks.{shade_letter};

/// The colours of trees by their ranks, and of all others.
pub(crate) const TREES: &str =
    ".t0{fill:#067CFF}.t1{fill:#E6B006}.t2{fill:#A001C6}.t3{fill:#728551}.t4{fill:#F18740}.t5{fill:#004C7B}.t6{fill:#D5FF00}";

pub(crate) const LATER_TREES: &str =
    ".t7{fill:#4E251A}.t8{fill:#2D06FF}.t9{fill:#FFFF7E}.t10{fill:#050984}.t11{fill:#210136}.t12{fill:#5A5A5A}";

/// The same of their overflow pages, lighter.
pub(crate) const OVERFLOW: &str =
    ".o0{fill:#C6E1FF}.o1{fill:#F2D67E}.o2{fill:#DB9EE9}.o3{fill:#BBC4AB}.o4{fill:#F7B78C}.o5{fill:#6E99B4}.o6{fill:#F2FFB3}";

pub(crate) const LATER_OVERFLOW: &str =
    ".o7{fill:#957C76}.o8{fill:#A594FF}.o9{fill:#FFFFE3}.o10{fill:#6C6EB6}.o11{fill:#7A6786}.o12{fill:#A6A6A6}";

/// The colours of the freelist, of pages of fixed use, of those that are nobody's, of those that are one byte throughout (a thin cross on
/// white), and of those that are not in the file.
pub(crate) const OTHERS: &str =
    ".t13{fill:#DBDBDB}.t14{fill:#000000}.t15{fill:url(#unowned)}.t16{fill:url(#zeros)}.t17{fill:#FFFFFF}";

/// The number of the class of pages that are not in the file; those of owners are their numbers.
pub(crate) const MISSING: usize = 17;

/// What the class of an owner begins with, in the shade of overflow pages or not. Its number follows.
pub(crate) fn shade_letter(is_overflow: bool) -> &'static str
    ensures { result.now ≡ shade_letter is_overflow }
{
    if is_overflow { "o" } else { "t" }
}
