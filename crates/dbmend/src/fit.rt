// How well a page fits a place that may have named it.
use crate::key::{Key, Order, Step};
use crate::lost::Kind;
use dbpage::PageView;

// The more points, the better; then the nearer the page is to those beside it.
#[derive(Clone, Copy)]
pub(crate) struct Fit {
    points: u32,
    distance: u32,
}

impl Fit {
    pub(crate) fn new(points: u32, distance: u32) -> Fit {
        Fit { points, distance }
    }

    // One with fewer points.
    pub(crate) fn less(&self, points: u32) -> Fit {
        Fit::new(self.points.saturating_sub(points), self.distance)
    }

    pub(crate) fn is_better(&self, other: &Fit) -> bool {
        self.points > other.points || self.points == other.points && self.distance < other.distance
    }
}

// The first and the last key of a page, or the keys around a page.
#[derive(Clone, Copy)]
pub(crate) struct Span {
    pub(crate) first: Key,
    pub(crate) last: Key,
}

impl Span {
    pub(crate) const UNKNOWN: Span = Span {
        first: Key::Unknown,
        last: Key::Unknown,
    };

    // These, or those of another one where a key is unknown.
    pub(crate) fn or(&self, other: &Span) -> Span {
        Span {
            first: self.first.or(&other.first),
            last: self.last.or(&other.last),
        }
    }

    // The keys of the cells beside a child.
    pub(crate) fn beside(view: &PageView<'_>, item: u32) -> Span {
        let first = match item.checked_sub(1) {
            Some(before) => Key::of(view, before),
            None => Key::Unknown,
        };
        Span {
            first,
            last: Key::of(view, item),
        }
    }

    // The first and the last key of a page.
    pub(crate) fn of(view: &PageView<'_>) -> Span {
        Span {
            first: Key::of(view, 0),
            last: Key::of(view, view.cells().saturating_sub(1)),
        }
    }
}

// What is known of a place: the kind of page that it names, the keys around that, those of the page of the place, and pages beside it.
#[derive(Clone, Copy)]
pub(crate) struct Around {
    pub(crate) kind: Kind,
    pub(crate) keys: Span,
    pub(crate) own: Span,
    pub(crate) near: [u32; 2],
    // Pages between which it is, if numbers go in order. Rows that are added in their order have their overflow chains in that order.
    pub(crate) order: Option<[u32; 2]>,
}

impl Around {
    // Nothing but the kind is known, and a page beside it.
    pub(crate) fn beside(kind: Kind, near: u32) -> Around {
        Around {
            kind,
            keys: Span::UNKNOWN,
            own: Span::UNKNOWN,
            near: [near, near],
            order: None,
        }
    }

    // With the keys around its own page, where none beside it is known.
    pub(crate) fn within(&self, outer: &Span) -> Around {
        match self.kind {
            Kind::Table | Kind::Index => Around {
                keys: self.keys.or(outer),
                ..*self
            },
            Kind::Other | Kind::Free => *self,
        }
    }

    // Between two pages, of which 0 or the greatest number is none.
    pub(crate) fn between(kind: Kind, order: [u32; 2]) -> Around {
        let [before, behind] = order;
        let near = [
            if before == 0 { behind } else { before },
            if behind == u32::MAX { before } else { behind },
        ];
        Around {
            near,
            order: Some(order),
            ..Around::beside(kind, 0)
        }
    }

    // How far a page is from the one before it, if it is in order.
    fn step(&self, page: u32) -> Option<u32> {
        let [before, behind] = self.order?;
        (before < page && page < behind).then_some(page.abs_diff(before))
    }

    // How many points fewer another page has than the one that is named, if that fits as well, and no key says it but their numbers: in an
    // overflow chain or a trunk.
    pub(crate) fn doubt(&self, named: u32, other: u32) -> u32 {
        if matches!(self.kind, Kind::Table | Kind::Index) {
            return 0;
        }
        match (self.step(named), self.step(other)) {
            (Some(_), None) => 10,
            (None, _) if self.order.is_some() => 0,
            _ if distance(named, &self.near) <= distance(other, &self.near) => 9,
            _ => 0,
        }
    }
}

// A page that may have been named: what it looks like, its keys, and the page in use to which it leads, or 0.
#[derive(Clone, Copy)]
pub(crate) struct Root {
    pub(crate) page: u32,
    pub(crate) kind: Kind,
    pub(crate) keys: Span,
    pub(crate) next: u32,
}

impl Default for Root {
    fn default() -> Root {
        Root {
            page: 0,
            kind: Kind::Other,
            keys: Span::UNKNOWN,
            next: 0,
        }
    }
}

// How far a page is from the nearer of two.
fn distance(page: u32, near: &[u32; 2]) -> u32 {
    page.abs_diff(near[0]).min(page.abs_diff(near[1]))
}

// Whether of some keys two rise and two fall in one column. (Another column of an index may go the other way.)
fn are_mixed(steps: &[Step; 4]) -> bool {
    steps
        .iter()
        .any(|one| steps.iter().any(|other| one.is_against(other)))
}

// Whether the keys of a page and those around it go one way, and which of these are known.
fn keys_fit(around: &Around, root: &Root, folded: bool) -> u32 {
    let before = around.keys.first.step(&root.keys.first, folded);
    let behind = root.keys.last.step(&around.keys.last, folded);
    let within = root.keys.first.step(&root.keys.last, folded);
    let own = around.own.first.step(&around.own.last, folded);
    let steps = [before, behind, within, own];
    let falls = steps.iter().any(|step| step.order == Order::Falling);
    if falls && around.kind == Kind::Table || are_mixed(&steps) {
        return 0;
    }
    if before.order == Order::Unknown && behind.order == Order::Unknown {
        return 2;
    }
    4
}

// Whether there is no room for other rows on one side of a page.
fn is_tight(keys: &Span, root: &Span) -> bool {
    root.first.is_above_by(&keys.first, 1) || keys.last.is_above_by(&root.last, 0)
}

// How well a page fits a place.
pub(crate) fn fit_of(around: &Around, root: &Root) -> Fit {
    let keys = keys_fit(around, root, false).max(keys_fit(around, root, true));
    let is_alike = around.kind == root.kind || around.kind == Kind::Free;
    let mut points = if is_alike { 8 } else { 0 };
    if root.keys.first.is_like(&around.keys.first) || root.keys.first.is_like(&around.keys.last) {
        points += 2;
    }
    if is_tight(&around.keys, &root.keys) {
        points += 3;
    }
    let away = match around.step(root.page) {
        Some(away) => {
            points += 1;
            away
        }
        None => distance(root.page, &around.near),
    };
    Fit::new(keys.saturating_add(points), away)
}
