use jpql_grammar::grammar::{Keyword, Mark};

#[test]
fn marks_and_words_are_told_apart(rt: HostRuntime) {
    assert!(rt; Mark::Less.is(Mark::Less));
    assert!(rt; !Mark::Less.is(Mark::AtMost));
    assert!(rt; Keyword::Min.is(Keyword::Min));
    assert!(rt; !Keyword::Min.is(Keyword::Max));
}
