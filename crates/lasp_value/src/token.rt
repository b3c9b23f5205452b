//! Tokens: each addition of a value to a set is marked by one of its own, so that a removal can name the additions that it has seen.

ghost use Rattle.std.specs.Prelude.{◌≡◌, ◌≤◌, ◌^◌, IfOk, refl};
ghost use Rattle.std.specs.Ordering.{eq_by_cmp, as_partial_cmp};
ghost use Rattle.std.specs.Cmp.{partial_equiv_from_equiv};
ghost use Rattle.model_values.specs.Size.{width};
ghost use Rattle.lasp_value.specs.Token.{tok_of, token_cmp, token_total, token_equivalence, token_order};

use std::alloc::{AllocError, Global};
use std::cmp::Ordering;

/// Where a row comes from.
#[derive(Drop)]
pub enum Token {
    /// The update with this number, counted from 1, of this replica.
    Base(u8, u64),
    /// A row that was made of two rows, as by a product or an intersection.
    Both(Box<Token>, Box<Token>),
}

impl Token {
    /// An equal token; two boxes a pair.
    pub fn try_clone(&self, alloc: Global) -> Result<Token, AllocError>
        ensures { IfOk result (λ t. tok_of t ≡ tok_of self.now) }
    {
        match self {
            Token::Base(replica, k) => Ok(Token::Base(*replica, *k)),
            Token::Both(a, b) => {
                let first = a.try_clone(alloc)?;
                let second = b.try_clone(alloc)?;
                Ok(Token::Both(Box::new(alloc, first)?, Box::new(alloc, second)?))
            }
        }
    }

    /// The number of base tokens in it.
    pub fn width(&self) -> u64
        requires { width (tok_of self.now) ≤ 2 ^ 32 }
        ensures { result ≡ width (tok_of self.now) }
    {
        match self {
            Token::Base(_, _) => 1,
            Token::Both(a, b) => a.width() + b.width(),
        }
    }
}

impl PartialEq for Token {
    ghost eq = { eq_by_cmp token_cmp };

    ghost laws = { partial_equiv_from_equiv token_equivalence };

    fn eq(&self, other: &Token) -> bool {
        self.cmp(other).is_eq()
    }
}

impl Eq for Token {
    ghost laws = { token_equivalence };
}

impl Ord for Token {
    ghost cmp = { token_cmp };

    ghost total = { token_total };

    ghost matches_partial_cmp = { λ _ _. refl };

    ghost matches_eq = { λ _ _. refl };

    fn cmp(&self, other: &Token) -> Ordering {
        match (self, other) {
            (Token::Base(p, k), Token::Base(q, l)) => p.cmp(q).then(k.cmp(l)),
            (Token::Base(_, _), Token::Both(_, _)) => Ordering::Less,
            (Token::Both(_, _), Token::Base(_, _)) => Ordering::Greater,
            (Token::Both(a, b), Token::Both(c, d)) => match a.as_ref().cmp(c) {
                Ordering::Equal => b.as_ref().cmp(d),
                unequal => unequal,
            },
        }
    }
}

impl PartialOrd for Token {
    ghost partial_cmp = { as_partial_cmp token_cmp };

    ghost laws = { token_order };

    fn partial_cmp(&self, other: &Token) -> Option<Ordering> {
        Some(self.cmp(other))
    }
}
