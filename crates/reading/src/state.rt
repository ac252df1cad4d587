// What the lines so far have given: a state by value, with one method for each keyword.
ghost use Rattle.std.specs.Prelude.{◌≡◌, ◌≤◌, ◌<◌, true, is_some};
ghost use Rattle.std.specs.Option.{ForSome};
ghost use Rattle.rules.specs.Units.{in_range, row_limit};
ghost use Rattle.rules.specs.Descriptions.{alike};
ghost use Rattle.reading.specs.Within.{BoundsWithin};

use judge::count_rows;
use rules::{Bounds, Description, Domain, Item, Keyword, Kind, Size, Thousandths, Title};

// What was given, and how many data lines there were: bounds within ±10, a size in range, and rows only where there is a size.
#[derive(Clone, Copy)]
pub struct State {
    pub title: Option<Title>,
    pub lower: Option<Bounds>,
    pub upper: Option<Bounds>,
    pub size: Option<Size>,
    pub rows: usize,
    pub ghost lower_within: { ForSome lower (λ b. BoundsWithin b) },
    pub ghost upper_within: { ForSome upper (λ b. BoundsWithin b) },
    pub ghost size_within: { ForSome size (λ s. in_range s.kind s.n ≡ true) },
    pub ghost after_size: { 0 < rows → is_some size ≡ true },
    pub ghost few: { rows ≤ row_limit },
}

// No title.
const NO_TITLE: Title = Title {
    there: false,
    place: 0,
    length: 0,
};

// No size counts as 1D with no rows.
const NO_SIZE: Size = Size {
    kind: Kind::OneD,
    n: 0,
};

// Three bounds alike.
fn all_alike(n: u16) -> Bounds
    ensures { result ≡ alike n }
{
    Bounds {
        red: Thousandths(n as i64),
        green: Thousandths(n as i64),
        blue: Thousandths(n as i64),
    }
}

// The domain between two bounds.
fn between(lower: Thousandths, upper: Thousandths) -> Domain
    ensures { result ≡ record { lower = lower; upper = upper } }
{
    Domain { lower, upper }
}

impl State {
    ghost use Rattle.rules.specs.Reading.Judge.{start, add, describe, repeats};
    ghost use Rattle.rules.specs.declared.Item.TheVariants.{OfTitle, OfLower, OfUpper, OfSize};
    ghost use Rattle.reading.specs.View.{view, RowsWelcome, Welcome, counting, left};

    // Nothing given: no title, the domain 0 to 1, no size, no rows.
    pub fn new() -> State
        ensures { view result ≡ start }
    {
        State {
            title: None,
            lower: None,
            upper: None,
            size: None,
            rows: 0,
        }
    }

    fn with_title(self, title: Title) -> State
        ensures { view result ≡ add (view self) (OfTitle title) }
    {
        let mut next = self;
        next.title = Some(title);
        next
    }

    fn with_lower(self, lower: Bounds) -> State
        requires { BoundsWithin lower }
        ensures { view result ≡ add (view self) (OfLower lower) }
    {
        let mut next = self;
        next.lower = Some(lower);
        next
    }

    fn with_upper(self, upper: Bounds) -> State
        requires { BoundsWithin upper }
        ensures { view result ≡ add (view self) (OfUpper upper) }
    {
        let mut next = self;
        next.upper = Some(upper);
        next
    }

    fn with_size(self, size: Size) -> State
        requires { in_range size.kind size.n ≡ true }
        ensures { view result ≡ add (view self) (OfSize size) }
    {
        let mut next = self;
        next.size = Some(size);
        next
    }

    // How many rows may still come, once a first one was there; before that none are counted.
    pub fn left(self) -> usize
        ensures { result ≡ left (view self) }
    {
        let Some(size) = self.size else {
            return 0;
        };
        if self.rows == 0 {
            return 0;
        }
        let all = count_rows(size.kind, size.n);
        all.saturating_sub(self.rows)
    }

    // So many data lines more.
    pub fn with_rows(self, more: usize) -> State
        requires { RowsWelcome (view self) more }
        ensures { view result ≡ counting (view self) more }
    {
        let mut next = self;
        next.rows = self.rows + more;
        next
    }

    // With what a line gives.
    pub fn with_item(self, item: Item) -> State
        requires { Welcome (view self) item }
        ensures { view result ≡ add (view self) item }
    {
        match item {
            Item::Nothing => self,
            Item::OfTitle(title) => self.with_title(title),
            Item::OfLower(lower) => self.with_lower(lower),
            Item::OfUpper(upper) => self.with_upper(upper),
            Item::OfSize(size) => self.with_size(size),
            Item::OfRow(_) => self.with_rows(1),
        }
    }

    // What the state describes, with the defaults of what was not given.
    pub fn describe(self) -> Description
        ensures { result ≡ describe (view self) }
    {
        let title = self.title.unwrap_or(NO_TITLE);
        let lower = self.lower.unwrap_or(all_alike(0));
        let upper = self.upper.unwrap_or(all_alike(1000));
        let size = self.size.unwrap_or(NO_SIZE);
        Description {
            kind: size.kind,
            n: size.n,
            red: between(lower.red, upper.red),
            green: between(lower.green, upper.green),
            blue: between(lower.blue, upper.blue),
            title,
        }
    }

    // Whether a keyword's line was there.
    pub fn repeats(self, k: Keyword) -> bool
        ensures { result ≡ repeats k (view self) }
    {
        match k {
            Keyword::ATitle => self.title.is_some(),
            Keyword::ALower => self.lower.is_some(),
            Keyword::AnUpper => self.upper.is_some(),
            Keyword::ASize(_) => self.size.is_some(),
        }
    }
}
