//! The words of the grammar.
ghost use Rattle.std.specs.Prelude.{◌≡◌};
ghost use Rattle.std.specs.Str.{str_eq_ignore_ascii_case};
ghost use Rattle.jpql_grammar.specs.grammar.Text as spec;
ghost use Rattle.jpql_trees.specs.declared.tree.Language.TheVariants as language;

use crate::grammar::Keyword;
use jpql_trees::tree::Language;

/// The words of the profile's grammar, which the wider language has too.
const PROFILE_KEYWORDS: [Keyword; 46] = [
    Keyword::Select,
    Keyword::Distinct,
    Keyword::From,
    Keyword::Where,
    Keyword::Group,
    Keyword::By,
    Keyword::Having,
    Keyword::Order,
    Keyword::As,
    Keyword::Inner,
    Keyword::Left,
    Keyword::Outer,
    Keyword::Join,
    Keyword::On,
    Keyword::Asc,
    Keyword::Desc,
    Keyword::Update,
    Keyword::Set,
    Keyword::Null,
    Keyword::Delete,
    Keyword::Or,
    Keyword::And,
    Keyword::Not,
    Keyword::Between,
    Keyword::In,
    Keyword::Like,
    Keyword::Escape,
    Keyword::Is,
    Keyword::Empty,
    Keyword::Member,
    Keyword::Of,
    Keyword::Exists,
    Keyword::Type,
    Keyword::Length,
    Keyword::Concat,
    Keyword::Substring,
    Keyword::Locate,
    Keyword::Abs,
    Keyword::Mod,
    Keyword::Size,
    Keyword::Coalesce,
    Keyword::NullIf,
    Keyword::Count,
    Keyword::Sum,
    Keyword::Min,
    Keyword::Max,
];

/// The words that the wider language has besides.
const WIDE_KEYWORDS: [Keyword; 14] = [
    Keyword::Upper,
    Keyword::Lower,
    Keyword::Trim,
    Keyword::Leading,
    Keyword::Trailing,
    Keyword::Both,
    Keyword::Case,
    Keyword::When,
    Keyword::Then,
    Keyword::Else,
    Keyword::End,
    Keyword::All,
    Keyword::Any,
    Keyword::Some,
];

fn spelling(keyword: Keyword) -> &'static str
    ensures { result.now ≡ spec.spelling keyword }
{
    match keyword {
        Keyword::Select => "SELECT",
        Keyword::Distinct => "DISTINCT",
        Keyword::From => "FROM",
        Keyword::Where => "WHERE",
        Keyword::Group => "GROUP",
        Keyword::By => "BY",
        Keyword::Having => "HAVING",
        Keyword::Order => "ORDER",
        Keyword::As => "AS",
        Keyword::Inner => "INNER",
        Keyword::Left => "LEFT",
        Keyword::Outer => "OUTER",
        Keyword::Join => "JOIN",
        Keyword::On => "ON",
        Keyword::Asc => "ASC",
        Keyword::Desc => "DESC",
        Keyword::Update => "UPDATE",
        Keyword::Set => "SET",
        Keyword::Null => "NULL",
        Keyword::Delete => "DELETE",
        Keyword::Or => "OR",
        Keyword::And => "AND",
        Keyword::Not => "NOT",
        Keyword::Between => "BETWEEN",
        Keyword::In => "IN",
        Keyword::Like => "LIKE",
        Keyword::Escape => "ESCAPE",
        Keyword::Is => "IS",
        Keyword::Empty => "EMPTY",
        Keyword::Member => "MEMBER",
        Keyword::Of => "OF",
        Keyword::Exists => "EXISTS",
        Keyword::Type => "TYPE",
        Keyword::Length => "LENGTH",
        Keyword::Concat => "CONCAT",
        Keyword::Substring => "SUBSTRING",
        Keyword::Locate => "LOCATE",
        Keyword::Abs => "ABS",
        Keyword::Mod => "MOD",
        Keyword::Size => "SIZE",
        Keyword::Coalesce => "COALESCE",
        Keyword::NullIf => "NULLIF",
        Keyword::Count => "COUNT",
        Keyword::Sum => "SUM",
        Keyword::Min => "MIN",
        Keyword::Max => "MAX",
        Keyword::Upper => "UPPER",
        Keyword::Lower => "LOWER",
        Keyword::Trim => "TRIM",
        Keyword::Leading => "LEADING",
        Keyword::Trailing => "TRAILING",
        Keyword::Both => "BOTH",
        Keyword::Case => "CASE",
        Keyword::When => "WHEN",
        Keyword::Then => "THEN",
        Keyword::Else => "ELSE",
        Keyword::End => "END",
        Keyword::All => "ALL",
        Keyword::Any => "ANY",
        Keyword::Some => "SOME",
    }
}

fn is_same_word(one: &[u8], other: &[u8]) -> bool
    ensures { result ≡ str_eq_ignore_ascii_case one.now other.now }
{
    one.eq_ignore_ascii_case(other)
}

fn first_keyword(keywords: &[Keyword], word: &str) -> Option<Keyword>
    ensures { result ≡ spec.first_keyword keywords.now word.now }
{
    for keyword in keywords {
        if is_same_word(spelling(*keyword).as_bytes(), word.as_bytes()) {
            return Some(*keyword);
        }
    }
    None
}

#[tactic(auto, unfolding(crate::specs::grammar::Text::keyword_of))]
fn profile_keyword(word: &str) -> Option<Keyword>
    ensures { result ≡ spec.keyword_of language.Profile word.now }
{
    first_keyword(&PROFILE_KEYWORDS, word)
}

fn wide_keyword(word: &str) -> Option<Keyword>
    ensures { result ≡ spec.keyword_of language.Wide word.now }
{
    match profile_keyword(word) {
        Some(keyword) => Some(keyword),
        None => first_keyword(&WIDE_KEYWORDS, word),
    }
}

/// The word of the language's grammar that the word is, whatever its case.
pub fn keyword_of(language: Language, word: &str) -> Option<Keyword>
    ensures { result ≡ spec.keyword_of language word.now }
{
    match language {
        Language::Profile => profile_keyword(word),
        Language::Wide => wide_keyword(word),
    }
}
