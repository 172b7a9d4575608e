//! The grammar of a language, told.
ghost use Rattle.std.specs.Prelude.{◌≡◌};
ghost use Rattle.jpql_text.specs.shapes.Printed as spec;

use jpql_trees::tree::Language;

const PROFILE: &str = concat!(
    r#"{"language":"profile","keywords":["#,
    r#""SELECT","DISTINCT","FROM","WHERE","GROUP","BY","HAVING","ORDER","AS","INNER","LEFT","#,
    r#""OUTER","JOIN","ON","ASC","DESC","UPDATE","SET","NULL","DELETE","OR","AND","NOT","#,
    r#""BETWEEN","IN","LIKE","ESCAPE","IS","EMPTY","MEMBER","OF","EXISTS","TYPE","LENGTH","#,
    r#""CONCAT","SUBSTRING","LOCATE","ABS","MOD","SIZE","COALESCE","NULLIF","COUNT","SUM","#,
    r#""MIN","MAX""#,
    r#"],"functions":["#,
    r#"{"name":"LENGTH","arguments":["text"],"least":1,"most":1,"result":"integer"},"#,
    r#"{"name":"CONCAT","arguments":["text","text"],"least":2,"most":null,"result":"text"},"#,
    r#"{"name":"SUBSTRING","arguments":["text","integer","integer"],"least":2,"most":3,"result":"text"},"#,
    r#"{"name":"LOCATE","arguments":["text","text","integer"],"least":2,"most":3,"result":"integer"},"#,
    r#"{"name":"ABS","arguments":["integer"],"least":1,"most":1,"result":"integer"},"#,
    r#"{"name":"MOD","arguments":["integer","integer"],"least":2,"most":2,"result":"integer"},"#,
    r#"{"name":"COALESCE","arguments":["any","any"],"least":2,"most":null,"result":"any"},"#,
    r#"{"name":"NULLIF","arguments":["any","any"],"least":2,"most":2,"result":"any"}"#,
    r#"],"aggregates":["COUNT","SUM","MIN","MAX"],"#,
    r#""limits":{"bytes":16384,"parentheses":32,"variables":8,"list":4096,"listsTogether":65536}}"#,
    "\n",
);

const WIDE: &str = concat!(
    r#"{"language":"wide","keywords":["#,
    r#""SELECT","DISTINCT","FROM","WHERE","GROUP","BY","HAVING","ORDER","AS","INNER","LEFT","#,
    r#""OUTER","JOIN","ON","ASC","DESC","UPDATE","SET","NULL","DELETE","OR","AND","NOT","#,
    r#""BETWEEN","IN","LIKE","ESCAPE","IS","EMPTY","MEMBER","OF","EXISTS","TYPE","LENGTH","#,
    r#""CONCAT","SUBSTRING","LOCATE","ABS","MOD","SIZE","COALESCE","NULLIF","COUNT","SUM","#,
    r#""MIN","MAX","UPPER","LOWER","TRIM","LEADING","TRAILING","BOTH","CASE","WHEN","THEN","#,
    r#""ELSE","END","ALL","ANY","SOME""#,
    r#"],"functions":["#,
    r#"{"name":"LENGTH","arguments":["text"],"least":1,"most":1,"result":"integer"},"#,
    r#"{"name":"CONCAT","arguments":["text","text"],"least":2,"most":null,"result":"text"},"#,
    r#"{"name":"SUBSTRING","arguments":["text","integer","integer"],"least":2,"most":3,"result":"text"},"#,
    r#"{"name":"LOCATE","arguments":["text","text","integer"],"least":2,"most":3,"result":"integer"},"#,
    r#"{"name":"ABS","arguments":["integer"],"least":1,"most":1,"result":"integer"},"#,
    r#"{"name":"MOD","arguments":["integer","integer"],"least":2,"most":2,"result":"integer"},"#,
    r#"{"name":"COALESCE","arguments":["any","any"],"least":2,"most":null,"result":"any"},"#,
    r#"{"name":"NULLIF","arguments":["any","any"],"least":2,"most":2,"result":"any"},"#,
    r#"{"name":"UPPER","arguments":["text"],"least":1,"most":1,"result":"text"},"#,
    r#"{"name":"LOWER","arguments":["text"],"least":1,"most":1,"result":"text"},"#,
    r#"{"name":"TRIM","arguments":["text","text"],"least":1,"most":2,"result":"text"}"#,
    r#"],"aggregates":["COUNT","SUM","MIN","MAX"],"#,
    r#""limits":{"bytes":16384,"parentheses":32,"variables":8,"list":4096,"#,
    r#""listsTogether":65536,"cases":64}}"#,
    "\n",
);

/// What the grammar of a language has, as a line of compact JSON with its line feed: `language`,
/// `profile` or `wide`; `keywords`, in capitals, which ignore ASCII case in a text (chapter 4.4.1);
/// `functions` (chapters 4.7.2 to 4.7.4) with the kinds of their `arguments`, of which the last one
/// repeats, how many there are at `least` and at `most`, null for no bound, and their `result`;
/// `aggregates` (chapter 4.9.5); and `limits`: the most `bytes` of a text, open `parentheses`,
/// `variables` that are declared, values of a `list`, a collection that is handed in for a
/// parameter, values that `listsTogether` become, counted at each place where one stands behind IN,
/// and words CASE (`cases`), which the wide language alone has.
///
/// A kind is `text`, `integer` or `any`: all arguments of `any` are of one sort, which isn't an
/// entity's.
pub fn grammar_text(language: Language) -> &'static str
    ensures { result.now ≡ spec.grammar_text language }
{
    match language {
        Language::Profile => PROFILE,
        Language::Wide => WIDE,
    }
}
