//! Small texts, worked lexeme by lexeme: which policy they stand for, or where they stop being one.

ghost use Rattle.std.specs.Prelude.{◌≡◌, true, codes, replicate, [], ◌∷◌, Some, None};
ghost use Rattle.merlin_model.specs.declared.policy.Bound.TheVariants.{Max};
ghost use Rattle.merlin_model.specs.declared.policy.Field.TheVariants.{IpSrc, IpDst};
ghost use Rattle.merlin_model.specs.declared.policy.Test.TheVariants.{Is, Within};
ghost use Rattle.merlin_model.specs.declared.policy.Part.TheVariants.{Id, Constant};
ghost use Rattle.merlin_model.specs.declared.policy.Pred.{Yes, Test as Tests, All};
ghost use Rattle.merlin_text.specs.declared.token.Word.TheVariants as words;
ghost use Rattle.merlin_text.specs.declared.token.Sign.TheVariants as signs;
ghost use Rattle.policy_grammar.specs.declared.written.RawPath.{Dot, Star};
ghost use Rattle.policy_grammar.specs.declared.written.Literal.TheVariants.{Ip};
ghost use Rattle.policy_grammar.specs.declared.written.Item.TheVariants.{One, ForEach};
ghost use Rattle.policy_grammar.specs.Lexemes.{name, word, sign, number, rate, ip, prefix};
ghost use Rattle.policy_grammar.specs.Grammar.{StandsFor, IsFaultAt};
ghost use Rattle.policy_grammar.specs.NumberedPaths.{first_unknown, numbered, two_places, row_path};
ghost use Rattle.merlin_model.specs.declared.policy.Path.{Nothing as NoWord, Dot as AnyPlace, Loc, Cat as Sequence, Alt as Choice, Star as Repetition, Not as Complement};

/// `[ default -> .* ]`; and without its end, and nothing at all.
pub fn default_row()
    ensures value { StandsFor (sign signs.OpenList ∷ word words.Default ∷ sign signs.Arrow
        ∷ sign signs.Dot ∷ sign signs.Star ∷ sign signs.CloseList ∷ [])
        (record { sets = []; items = []; default_path = Some (Star Dot); terms = [] }) }
    ensures unclosed { IsFaultAt (sign signs.OpenList ∷ word words.Default ∷ sign signs.Arrow
        ∷ sign signs.Dot ∷ sign signs.Star ∷ []) 5 }
    ensures nothing { IsFaultAt [] 0 }
{}

/// `A := {10.0.0.1, 10.0.0.2, 10.0.0.1} [ foreach (s, d) in cross(A, A) : w : true -> .* ; default -> .* ]`.
pub fn pairs_row()
    ensures { StandsFor (name (codes "A") 0 ∷ sign signs.Becomes ∷ sign signs.OpenSet
        ∷ ip 167772161 ∷ sign signs.Comma ∷ ip 167772162 ∷ sign signs.Comma ∷ ip 167772161
        ∷ sign signs.CloseSet
        ∷ sign signs.OpenList ∷ word words.Foreach ∷ sign signs.OpenGroup ∷ name (codes "s") 47
        ∷ sign signs.Comma ∷ name (codes "d") 50 ∷ sign signs.CloseGroup ∷ word words.In
        ∷ word words.Cross
        ∷ sign signs.OpenGroup ∷ name (codes "A") 62 ∷ sign signs.Comma ∷ name (codes "A") 65
        ∷ sign signs.CloseGroup ∷ sign signs.Colon ∷ name (codes "w") 70 ∷ sign signs.Colon
        ∷ word words.True ∷ sign signs.Arrow ∷ sign signs.Dot ∷ sign signs.Star
        ∷ sign signs.Semicolon ∷ word words.Default ∷ sign signs.Arrow ∷ sign signs.Dot
        ∷ sign signs.Star ∷ sign signs.CloseList ∷ [])
        (record {
          sets = record {
            name = codes "A";
            literals = Ip 167772161 ∷ Ip 167772162
                ∷ Ip 167772161 ∷ [];
          } ∷ [];
          items = ForEach (codes "A") (codes "A")
              (record { id = codes "w"; pred = Yes; path = Star Dot; limits = [] }) ∷ [];
          default_path = Some (Star Dot);
          terms = [];
        }) }
{}

/// `[ x : true -> . at max(5kbps) ] , max(2kbps + x, 9kbps)`.
pub fn rates_row()
    ensures { StandsFor (sign signs.OpenList ∷ name (codes "x") 2 ∷ sign signs.Colon
        ∷ word words.True ∷ sign signs.Arrow ∷ sign signs.Dot ∷ word words.At ∷ word words.Max
        ∷ sign signs.OpenGroup ∷ rate 5 ∷ sign signs.CloseGroup
        ∷ sign signs.CloseList ∷ sign signs.Comma ∷ word words.Max ∷ sign signs.OpenGroup
        ∷ rate 2 ∷ sign signs.Plus ∷ name (codes "x") 46 ∷ sign signs.Comma ∷ rate 9
        ∷ sign signs.CloseGroup ∷ [])
        (record {
          sets = [];
          items = One
              (record {
                id = codes "x";
                pred = Yes;
                path = Dot;
                limits = record { bound = Max; rate = 5 } ∷ [];
              }) ∷ [];
          default_path = None;
          terms = record { bound = Max; parts = Constant 2 ∷ Id (codes "x") ∷ []; rate = 9 } ∷ [];
        }) }
{}

/// `[ x : ip.proto = 300 -> .* ]` stops at the number, and a 129th open bracket is one too many.
pub fn limits_row()
    ensures proto { IsFaultAt (sign signs.OpenList ∷ name (codes "x") 2 ∷ sign signs.Colon
        ∷ name (codes "ip") 6 ∷ sign signs.Dot ∷ name (codes "proto") 9 ∷ sign signs.Equals
        ∷ number 300
        ∷ sign signs.Arrow ∷ sign signs.Dot ∷ sign signs.Star ∷ sign signs.CloseList ∷ []) 7 }
    ensures brackets { IsFaultAt (sign signs.OpenList ∷ name (codes "x") 2 ∷ sign signs.Colon
        ∷ replicate 129 (sign signs.OpenGroup)) 131 }
{}

/// `[ x : ip.src = 10.1.2.3/16 and ip.dst = 10.0.0.1/32 -> .* ]`; and a block in a set, which is none of its literals.
pub fn prefix_row()
    ensures value { StandsFor (sign signs.OpenList ∷ name (codes "x") 2 ∷ sign signs.Colon
        ∷ name (codes "ip") 6 ∷ sign signs.Dot ∷ name (codes "src") 9 ∷ sign signs.Equals
        ∷ prefix 167838211 16
        ∷ word words.And ∷ name (codes "ip") 31 ∷ sign signs.Dot ∷ name (codes "dst") 34
        ∷ sign signs.Equals ∷ prefix 167772161 32 ∷ sign signs.Arrow ∷ sign signs.Dot
        ∷ sign signs.Star ∷ sign signs.CloseList ∷ [])
        (record {
          sets = [];
          items = One
              (record {
                id = codes "x";
                pred = All (Tests (Within IpSrc 167837696 16)
                    ∷ Tests (Is IpDst 167772161) ∷ []);
                path = Star Dot;
                limits = [];
              }) ∷ [];
          default_path = None;
          terms = [];
        }) }
    ensures set { IsFaultAt (name (codes "A") 0 ∷ sign signs.Becomes ∷ sign signs.OpenSet
        ∷ prefix 167772161 32 ∷ sign signs.CloseSet ∷ sign signs.OpenList ∷ sign signs.CloseList
        ∷ []) 3 }
{}

/// `h1 .* !(h2|nat) h2` over the locations 0 and 1, where `nat` is no name: `nat` is unknown, and stands under a bang.
pub fn numbered_row()
    ensures unknown { first_unknown two_places row_path
        ≡ Some (record { text = codes "nat"; place = 10; negated = true }) }
    ensures numbered { numbered two_places row_path
        ≡ Sequence (Loc 0) (Sequence (Repetition AnyPlace)
        (Sequence (Complement (Choice (Loc 1 ∷ NoWord ∷ []))) (Loc 1))) }
{}
