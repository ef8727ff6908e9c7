//! What the heads of a term stand for.

ghost use Rattle.std.specs.Prelude.{◌≡◌, ◌<◌, ◌^◌, Some, IsSome, length, position};
ghost use Rattle.std.specs.Str.{bytes_eq};
ghost use Rattle.rec_includes.specs.Names.{text_of};
ghost use Rattle.rec_includes.specs.Listing.{texts};
ghost use Rattle.rec_check.specs.Term.{symbol_item};

use rec_includes::{Directory, text_of};
use rec_reader::Node;
use symbol_pool::Symbols;
use term_model::Item;

/// The names that a term is read with: those of the variables, which are fewer than 2^32, and the
/// symbols. The heads of the term stand in the same bytes as the variables.
#[derive(Drop)]
pub(crate) struct Scope<'a> {
    pub symbols: &'a Symbols,
    pub variables: &'a Directory<'a>,
    ghost few: { length variables.now.names < 2 ^ 32 },
}

impl Scope<'_> {
    ghost use Rattle.rec_check.specs.Scope.{seen};
    ghost use Rattle.rec_check.specs.Term.{item_in};

    /// The number of the variable of a head's name. A head with arguments has none: a variable with
    /// arguments stands for nothing, and this head stands for something.
    #[inline(always)]
    fn variable_of(&self, node: Node) -> Option<usize>
        requires { IsSome (item_in (seen self.now) node) }
        ensures { result
            ≡ position (bytes_eq (text_of self.now.variables.now.bytes node.head))
            (texts self.now.variables.now) }
    {
        if node.count == 0 {
            self.variables.place(node.head)
        } else {
            None
        }
    }

    /// What a head stands for: the variable of its name, where there is one, which has no
    /// arguments, or else the symbol of its name and as many arguments as the head has.
    pub(crate) fn item_of(&self, node: Node) -> Item
        requires { IsSome (item_in (seen self.now) node) }
        ensures { item_in (seen self.now) node ≡ Some result }
    {
        match self.variable_of(node) {
            Some(variable) => Item::Var(variable as u32),
            None => {
                let name = text_of(self.variables.text(), node.head);
                symbol_item(self.symbols, name, node.count)
            }
        }
    }
}

#[tactic(auto, using(crate::proofs::Heads::symbols_found))]
fn symbol_item(symbols: &Symbols, name: &[u8], count: usize) -> Item
    requires { IsSome (symbol_item symbols.now name.now count) }
    ensures { symbol_item symbols.now name.now count ≡ Some result }
{
    let arguments = count as u32;
    let symbol = symbols.find(name, arguments).unwrap();
    Item::App(symbol, arguments)
}
