//! A reader of maps that is fed one token at a time.

ghost use Rattle.std.specs.Prelude.{◌≡◌, ◌↔◌, IsSome, IfSome};
ghost use Rattle.affine_maps.specs.Map.{IsMap};
ghost use Rattle.affine_text.specs.declared.reading.place.Step.TheVariants as steps;
ghost use Rattle.affine_text.specs.declared.reading.place.Place.TheVariants as places;
ghost use Rattle.affine_text.specs.Reading.{with_factor, next_product};
ghost use Rattle.affine_text.specs.Feeding.{Answers, goes_with, first_reader, taken, read_with, is_whole, map_read};

use crate::reading::collected::Product;
use crate::reading::fault::MapError;
use crate::reading::gathering::Gathering;
use crate::reading::names::Names;
use crate::reading::number::number_of;
use crate::reading::place::{Place, Step, is_division, sign_of, step_of};
use affine_maps::AffineMap;
use std::alloc::Global;
use std::marker::Model;
use text_format::Token;

/// How deep parentheses may nest.
const DEEPEST: usize = 64;

/// What has been read of a map's text. Its tokens are handed to `feed` in order, from `affine_map`
/// on, up to the one behind which `is_whole` holds; `into_map` then gives the map.
#[derive(Drop)]
pub struct Reader<'a> {
    alloc: Global,
    symbols: bool,
    place: Place,
    names: Names<'a>,
    gathering: Gathering,
}

impl<'a> Model for Reader<'a> {
    ghost use Rattle.std.specs.Prelude.{length};
    ghost use Rattle.affine_text.specs.Feeding.{ReaderShape, spot_at};
    ghost use Rattle.affine_text.specs.Codes.{reader_code};

    ghost Value = { ReaderShape };

    ghost coded = { reader_code };

    ghost view = { λ r. record { symbols = r.symbols; spot = spot_at r.place r.names (length r.gathering.outer); gathered = r.gathering } };
}

impl<'a> Reader<'a> {
    /// A reader before the first token. `symbols` says whether the map may have symbols.
    pub fn new(alloc: Global, symbols: bool) -> Reader<'a>
        ensures { result ≡ first_reader symbols }
    {
        Reader {
            alloc,
            symbols,
            place: Place::Keyword,
            names: Names::new(alloc),
            gathering: Gathering::new(alloc),
        }
    }

    /// Takes the next token.
    #[tactic(auto, unfolding(crate::specs::Feeding::read_with))]
    pub fn feed(&mut self, token: &Token<'a>) -> Result<(), MapError>
        ensures { Answers (read_with self.old token.now) result self.new }
    {
        let step = step_of(self.place, sign_of(token));
        self.take(step, token)
    }

    /// Whether the map is read.
    pub fn is_whole(&self) -> bool
        ensures { result ≡ is_whole self.now.spot.place }
    {
        match self.place {
            Place::Whole => true,
            _ => false,
        }
    }

    /// The map that was read. None: it would be none.
    pub fn into_map(self) -> Option<AffineMap>
        ensures valid { IsSome result ↔ IsMap (map_read self.entry) }
        ensures value { IfSome result (λ m. m ≡ map_read self.entry) }
    {
        AffineMap::new(self.names.count(), self.gathering.into_results())
    }

    fn take(&mut self, step: Step, token: &Token<'a>) -> Result<(), MapError>
        ensures { Answers (taken step token.now self.old) result self.new }
    {
        match step {
            Step::Keyword => self.keyword(token),
            Step::Goes(place) => {
                self.place = place;
                Ok(())
            }
            Step::Symbols => self.open_symbols(token),
            Step::Declares(place) => self.declare(place, token),
            Step::Turn => {
                self.gathering.turn();
                self.place = Place::Operand;
                Ok(())
            }
            Step::Name => self.name(token),
            Step::Number => self.number(token),
            Step::Open => self.open(token),
            Step::Times => {
                self.gathering.unturn();
                self.place = Place::Operand;
                Ok(())
            }
            Step::Plus => self.next_product(false),
            Step::Minus => self.next_product(true),
            Step::Comma => self.comma(token),
            Step::Close => self.close(token),
            Step::Operator => {
                if is_division(token) {
                    Err(MapError::Form(token.start()))
                } else {
                    Err(MapError::BadText(token.start()))
                }
            }
            Step::Bad => Err(MapError::BadText(token.start())),
        }
    }

    fn keyword(&mut self, token: &Token<'a>) -> Result<(), MapError>
        ensures { Answers (taken steps.Keyword token.now self.old) result self.new }
    {
        if token.text() != b"affine_map".as_slice() {
            return Err(MapError::BadText(token.start()));
        }
        self.place = Place::Less;
        Ok(())
    }

    fn open_symbols(&mut self, token: &Token<'a>) -> Result<(), MapError>
        ensures { Answers (taken steps.Symbols token.now self.old) result self.new }
    {
        if !self.symbols {
            return Err(MapError::BadText(token.start()));
        }
        self.place = Place::FirstSymbol;
        Ok(())
    }

    fn declare(&mut self, place: Place, token: &Token<'a>) -> Result<(), MapError>
        ensures { Answers (taken (steps.Declares place) token.now self.old) result self.new }
    {
        if let Some(_) = self.names.find(token.text()) {
            return Err(MapError::BadText(token.start()));
        }
        match self.names.declare(token.text()) {
            Ok(()) => {
                self.place = place;
                Ok(())
            }
            Err(_) => Err(MapError::Memory),
        }
    }

    fn name(&mut self, token: &Token<'a>) -> Result<(), MapError>
        ensures { Answers (taken steps.Name token.now self.old) result self.new }
    {
        match self.names.find(token.text()) {
            Some(dimension) => match Product::of_dimension(self.alloc, dimension) {
                Ok(factor) => self.factor(factor, token.start()),
                Err(_) => Err(MapError::Memory),
            },
            None => Err(MapError::BadText(token.start())),
        }
    }

    fn number(&mut self, token: &Token<'a>) -> Result<(), MapError>
        ensures { Answers (taken steps.Number token.now self.old) result self.new }
    {
        match number_of(token.text()) {
            Some(number) => self.factor(
                Product::of_number(self.alloc, number as i64),
                token.start(),
            ),
            None => Err(MapError::Range(token.start())),
        }
    }

    /// A factor that ends at this place.
    fn factor(&mut self, factor: Product, at: u32) -> Result<(), MapError>
        ensures { Answers (goes_with places.Operator self.old (with_factor self.old.gathered at factor)) result self.new }
    {
        match self.gathering.take_factor(factor, at) {
            Ok(()) => {
                self.place = Place::Operator;
                Ok(())
            }
            Err(e) => Err(e),
        }
    }

    fn open(&mut self, token: &Token<'a>) -> Result<(), MapError>
        ensures { Answers (taken steps.Open token.now self.old) result self.new }
    {
        if self.gathering.depth() >= DEEPEST {
            return Err(MapError::BadText(token.start()));
        }
        match self.gathering.open() {
            Ok(()) => {
                self.place = Place::Operand;
                Ok(())
            }
            Err(_) => Err(MapError::Memory),
        }
    }

    fn next_product(&mut self, subtracts: bool) -> Result<(), MapError>
        ensures { Answers (goes_with places.Operand self.old (next_product subtracts self.old.gathered)) result self.new }
    {
        match self.gathering.next_product(subtracts) {
            Ok(()) => {
                self.place = Place::Operand;
                Ok(())
            }
            Err(e) => Err(e),
        }
    }

    fn comma(&mut self, token: &Token<'a>) -> Result<(), MapError>
        ensures { Answers (taken steps.Comma token.now self.old) result self.new }
    {
        if self.gathering.depth() > 0 {
            return Err(MapError::BadText(token.start()));
        }
        match self.gathering.next_result() {
            Ok(()) => {
                self.place = Place::Operand;
                Ok(())
            }
            Err(e) => Err(e),
        }
    }

    fn close(&mut self, token: &Token<'a>) -> Result<(), MapError>
        ensures { Answers (taken steps.Close token.now self.old) result self.new }
    {
        let place = if self.gathering.depth() == 0 {
            Place::ResultsEnd
        } else {
            Place::Operator
        };
        match self.gathering.close(token.start()) {
            Ok(()) => {
                self.place = place;
                Ok(())
            }
            Err(e) => Err(e),
        }
    }
}
