//! Laws of the definitions, for contracts to cite.
ghost use Rattle.std.specs.Prelude.{◌≡◌, List, Some};
ghost use Rattle.jpa_work.specs.context.Steps.{Done};
ghost use Rattle.jpa_work.specs.context.Work.{Work};
ghost use Rattle.jpa_asked.specs.Asking.{ReadsAs, read_of};
ghost use Rattle.jpa_asked.specs.declared.asked.Reading.{Reading};
ghost use Rattle.jpql_text.specs.text.Answers.{IsRead};
ghost use Rattle.jpql_grammar.specs.declared.grammar.lists.GivenList.{GivenList};
ghost use Rattle.jpql_trees.specs.declared.tree.Language.{Language};
ghost use Rattle.jpql_trees.specs.declared.tree.Query.{Query};
ghost use Rattle.jpql_trees.specs.tree.Names.{Text};

/// A text is read as a tree exactly where it is one of the language's grammar within the limits, and
/// this is its tree (Jakarta Persistence 3.1, chapter 4); it does nothing.
pub fn read_laws()
    ensures found { (l : Language) (lists : List GivenList) (text : Text) (said : Reading)
        (query : Query) (w : Work) → read_of l lists text w ≡ Done said w
        → said.tree ≡ Some query → IsRead l lists text query }
    ensures only { (l : Language) (lists : List GivenList) (text : Text) (query : Query) (w : Work)
        → IsRead l lists text query → ReadsAs l lists text w query }
{}
