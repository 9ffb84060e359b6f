//! Laws of the grammar and of the function that finds trees: each law is the contract of a function
//! with an empty body.

ghost use Rattle.std.specs.Prelude.{◌≡◌, List as Seq, Ok, Err};
ghost use Rattle.c2po_lexer.specs.declared.token.Token.{Token};
ghost use Rattle.c2po_ast.specs.ItemShape.{ItemShape};
ghost use Rattle.c2po_parse.specs.declared.fault.ParseFault.{ParseFault};
ghost use Rattle.c2po_parse.specs.Items.{IsSpecification, HasFirstFault};
ghost use Rattle.c2po_parse.specs.Specification.{spec_of};

/// The grammar is unambiguous: it gives tokens one list of trees or one first fault, never both.
pub fn grammar_is_unambiguous()
    ensures trees { (tokens : Seq Token) (items others : Seq ItemShape) →
        IsSpecification tokens items → IsSpecification tokens others → items ≡ others }
    ensures faults { (tokens : Seq Token) (fault other : ParseFault) →
        HasFirstFault tokens fault → HasFirstFault tokens other → fault ≡ other }
    ensures apart { (tokens : Seq Token) (items : Seq ItemShape) (fault : ParseFault) →
        HasFirstFault tokens fault → ¬ IsSpecification tokens items }
{}

/// `spec_of` finds the trees that the grammar gives tokens, or their first fault if it gives none.
pub fn trees_are_found()
    ensures trees { (tokens : Seq Token) (items : Seq ItemShape) →
        spec_of tokens ≡ Ok items → IsSpecification tokens items }
    ensures all_trees { (tokens : Seq Token) (items : Seq ItemShape) →
        IsSpecification tokens items → spec_of tokens ≡ Ok items }
    ensures faults { (tokens : Seq Token) (fault : ParseFault) →
        spec_of tokens ≡ Err fault → HasFirstFault tokens fault }
    ensures all_faults { (tokens : Seq Token) (fault : ParseFault) →
        HasFirstFault tokens fault → spec_of tokens ≡ Err fault }
{}
