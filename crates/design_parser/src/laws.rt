//! What holds of the grammar.

ghost use Rattle.std.specs.Prelude.{◌≡◌, ◌+◌, ◌≤◌, ◌↔◌, ◌++◌, ℕ, List, Ok};
ghost use Rattle.design_lexer.specs.declared.tree.ExprTree.{ExprTree};
ghost use Rattle.design_lexer.specs.declared.tree.File.{File};
ghost use Rattle.design_lexer.specs.declared.tree.PlaceTree.{PlaceTree};
ghost use Rattle.design_lexer.specs.declared.tree.RefTree.{RefTree};
ghost use Rattle.design_lexer.specs.declared.tree.RuleTree.{RuleTree};
ghost use Rattle.design_lexer.specs.declared.tree.RuleTree.TheVariants as rule;
ghost use Rattle.design_lexer.specs.declared.tree.TypeTree.{TypeTree};
ghost use Rattle.design_lexer.specs.declared.tree.ValueTree.{ValueTree};
ghost use Rattle.design_lexer.specs.Syntax.Classes.{Lexeme};
ghost use Rattle.design_lexer.specs.Syntax.Reading.{over};
ghost use Rattle.design_lexer.specs.Syntax.Words.{signs};
ghost use Rattle.design_parser.specs.declared.parse.FileKind.{FileKind};
ghost use Rattle.design_parser.specs.Depth.{depth, reference_depth, type_depth, value_depth};
ghost use Rattle.design_parser.specs.Grammar.{Query, Ref, Rule, RuleOf, Type_, Value, Written};
ghost use Rattle.design_parser.specs.Readers.{expr_at};

/// One list of tokens writes at most one tree.
pub fn tokens_write_one_tree()
    ensures files { (kind : FileKind) (ts : List Lexeme) (a b : File) → Written kind ts a → Written kind ts b → a ≡ b }
    ensures queries { (ts : List Lexeme) (a b : List ValueTree) → Query ts a → Query ts b → a ≡ b }
{}

/// The signs of a rule are those before the next `;`.
pub fn signs_are_counted_up_to_the_semicolon()
    ensures { (ts more : List Lexeme) (x : RuleTree) (limit : ℕ) → RuleOf ts x → (over limit (ts ++ more) ≡ 0) ↔ (signs ts ≤ limit) }
{}

/// No type, value or reference is deeper than one more than the brackets that may be opened.
pub fn trees_are_no_deeper_than_the_brackets()
    ensures types { (room : ℕ) (ts : List Lexeme) (x : TypeTree) → Type_ room ts x → type_depth x ≤ 1 + room }
    ensures values { (room : ℕ) (ts : List Lexeme) (x : ValueTree) → Value room ts x → value_depth x ≤ 1 + room }
    ensures references { (room : ℕ) (ts : List Lexeme) (x : RefTree) → Ref room ts x → reference_depth x ≤ 1 + room }
{}

/// No expression is deeper than the brackets that may be opened and its signs allow, also on the way to a refusal.
pub fn expressions_are_no_deeper_than_the_limits()
    ensures rules { (ts : List Lexeme) (place : PlaceTree) (lower : ExprTree) → Rule ts (rule.Above place lower) → depth lower ≤ 1065 }
    ensures on_the_way { (room : ℕ) (ts rest : List Lexeme) (x : ExprTree) → over 1000 ts ≡ 0 → expr_at room ts ≡ Ok (x, rest) → depth x ≤ 1 + room + 1000 }
{}
