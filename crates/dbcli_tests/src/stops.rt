// What stops a test.
use arrayvec::ArrayString;
use std::fmt::{Debug, Write};

/// Of what something does not hold. What has no room is left out.
pub(crate) type Text = ArrayString<2048>;

/// Stops a test where something does not hold, and says what, and of what. It is a call where `assert!` has a branch, which would be
/// proved at each place. It is a macro since a function that may end the process has no place outside tests.
macro_rules! holds {
    ($rt:expr; $is_so:expr) => {
        $crate::stops::holding($is_so, &"").expect(&$rt, stringify!($is_so))
    };
    ($rt:expr; $is_so:expr, $of:expr) => {
        $crate::stops::holding($is_so, &$of).expect(&$rt, stringify!($is_so))
    };
}

pub(crate) use holds;

/// Ok where something holds, and else a text of what.
pub(crate) fn holding<T: Debug>(is_so: bool, of: &T) -> Result<(), Text> {
    if is_so {
        return Ok(());
    }
    let mut text = Text::new();
    let _ = write!(text, "{of:?}");
    Err(text)
}
