//! Findings in a text.

ghost use Rattle.std.specs.Prelude.{◌≡◌};
ghost use Rattle.rec_check.specs.Errors.{rule_number};
ghost use Rattle.rec_check.specs.Findings.{number_of};
ghost use Rattle.rec_check.specs.Lines.{code_of, is_error, label_of, rule_code, rule_label};
ghost use Rattle.rec_check.specs.Lines.{severity_of};

/// A well-formedness rule of specifications, S1 to S11.
#[derive(Clone, Copy, Debug, Drop, PartialEq, Eq)]
pub enum Rule {
    /// S1: duplicate sort.
    SortTwice,
    /// S2: duplicate symbol.
    SymbolTwice,
    /// S3: duplicate variable, or variable with the name of a symbol.
    VariableTaken,
    /// S4: undeclared sort.
    SortUnknown,
    /// S5: undeclared symbol or variable.
    WordUnknown,
    /// S6: wrong number of arguments.
    IllFilled,
    /// S7: argument of the wrong sort.
    IllSorted,
    /// S8: a left-hand side that does not start with an operator.
    IllHeaded,
    /// S9: two sides of a rule or of a condition with different sorts.
    UnlikeSides,
    /// S10: a variable that is not in the left-hand side of its rule.
    Unbound,
    /// S11: a variable in an EVAL term.
    OpenTerm,
}

impl Rule {
    /// Returns the number of the rule, from 1 to 11.
    fn number(self) -> u8
        ensures { result ≡ number_of self }
    {
        match self {
            Rule::SortTwice => 1,
            Rule::SymbolTwice => 2,
            Rule::VariableTaken => 3,
            Rule::SortUnknown => 4,
            Rule::WordUnknown => 5,
            Rule::IllFilled => 6,
            Rule::IllSorted => 7,
            Rule::IllHeaded => 8,
            Rule::UnlikeSides => 9,
            Rule::Unbound => 10,
            Rule::OpenTerm => 11,
        }
    }

    /// Returns the error code.
    fn code(self) -> &'static [u8]
        ensures { result.now ≡ rule_code self }
    {
        match self {
            Rule::SortTwice => b"S1",
            Rule::SymbolTwice => b"S2",
            Rule::VariableTaken => b"S3",
            Rule::SortUnknown => b"S4",
            Rule::WordUnknown => b"S5",
            Rule::IllFilled => b"S6",
            Rule::IllSorted => b"S7",
            Rule::IllHeaded => b"S8",
            Rule::UnlikeSides => b"S9",
            Rule::Unbound => b"S10",
            Rule::OpenTerm => b"S11",
        }
    }

    /// Returns the description of a violation.
    fn label(self) -> &'static [u8]
        ensures { result.now ≡ rule_label self }
    {
        match self {
            Rule::SortTwice => b"duplicate sort",
            Rule::SymbolTwice => b"duplicate symbol in CONS and OPNS, even with other sorts",
            Rule::VariableTaken => b"duplicate variable, or variable with the name of a symbol",
            Rule::SortUnknown => b"undeclared sort in CONS, OPNS or VARS",
            Rule::WordUnknown => b"undeclared symbol or variable in RULES or EVAL",
            Rule::IllFilled => b"wrong number of arguments of a symbol, or arguments of a variable",
            Rule::IllSorted => b"argument of the wrong sort",
            Rule::IllHeaded =>
                b"left-hand side that does not start with an operator (a symbol of OPNS)",
            Rule::UnlikeSides => b"rule or condition whose two sides have different sorts",
            Rule::Unbound => b"variable that is not in the left-hand side of its rule",
            Rule::OpenTerm => b"variable in an EVAL term",
        }
    }
}

/// The kind of a finding: an error or a warning.
#[derive(Clone, Copy, Debug, Drop, PartialEq, Eq)]
pub enum Kind {
    /// Error L1: the text is too long.
    TooLong,
    /// Error G: syntax error.
    Outside,
    /// A violated rule.
    Broken(Rule),
    /// Warning W1: unreachable rule, since an earlier rule without conditions matches every term
    /// that this rule matches.
    NeverTried,
    /// Warning W2: rule that cannot match, since an argument of its left-hand side is rewritten
    /// first.
    NeverMatches,
    /// Warning W3: a call that no left-hand side matches.
    NotCovered,
    /// Warning W4: unused sort.
    UnusedSort,
    /// Warning W4: unused symbol.
    UnusedSymbol,
    /// Warning W4: unused variable.
    UnusedVariable,
    /// Warning W5: used operator without rules.
    WithoutRules,
}

impl Kind {
    /// Returns the number of the violated rule; 0 if it is no violation.
    pub(crate) fn rule_number(self) -> u8
        ensures { result ≡ rule_number self }
    {
        match self {
            Kind::Broken(rule) => rule.number(),
            _ => 0,
        }
    }

    /// Returns whether it is an error. Other kinds are warnings.
    pub fn is_error(self) -> bool
        ensures { result ≡ is_error self }
    {
        match self {
            Kind::TooLong | Kind::Outside | Kind::Broken(_) => true,
            _ => false,
        }
    }

    /// Returns `error` or `warning` with the colon and the space after it in a line.
    pub(crate) fn severity(self) -> &'static [u8]
        ensures { result.now ≡ severity_of self }
    {
        if self.is_error() {
            b"error: "
        } else {
            b"warning: "
        }
    }

    /// Returns the code, as `S5` or `W3`.
    pub fn code(self) -> &'static [u8]
        ensures { result.now ≡ code_of self }
    {
        match self {
            Kind::TooLong => b"L1",
            Kind::Outside => b"G",
            Kind::Broken(rule) => rule.code(),
            Kind::NeverTried => b"W1",
            Kind::NeverMatches => b"W2",
            Kind::NotCovered => b"W3",
            Kind::UnusedSort | Kind::UnusedSymbol | Kind::UnusedVariable => b"W4",
            Kind::WithoutRules => b"W5",
        }
    }

    /// Returns the description, without the detail.
    pub fn label(self) -> &'static [u8]
        ensures { result.now ≡ label_of self }
    {
        match self {
            Kind::TooLong => b"the text has more than 16777216 bytes",
            Kind::Outside => b"syntax error in the specification",
            Kind::Broken(rule) => rule.label(),
            Kind::NeverTried => {
                b"unreachable rule: an earlier rule without conditions matches all that it matches"
            }
            Kind::NeverMatches => b"rule cannot match: this argument is rewritten first",
            Kind::NotCovered => b"missing case: no left-hand side matches this call",
            Kind::UnusedSort => b"unused sort",
            Kind::UnusedSymbol => b"unused symbol",
            Kind::UnusedVariable => b"unused variable",
            Kind::WithoutRules => b"operator without rules: each call of it is stuck",
        }
    }
}

/// One error or warning in a text.
#[derive(Drop)]
pub struct Diagnostic {
    /// The offset of the word that it is about; 0 if the text is too long.
    pub at: usize,
    /// The offset after that word; `at` if it is about no word.
    pub end: usize,
    pub kind: Kind,
    /// The detail after the description.
    pub shown: Vec<u8>,
}
