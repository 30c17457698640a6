//! How a map's use is read.

ghost use Rattle.mlir_syntax.specs.Maps.{map_piece, written_map, map_use};
ghost use Rattle.mlir_syntax.specs.MapLaws.{map_piece-exact, written_map-exact, map_use-exact};

use crate::tree::{MapPiece, MapUse, WrittenMap};
use mlir_base::Memory;
use std::alloc::Global;
use text_format::{Class, Lexeme, Node, Parser, Tree, many};

impl<'a> Tree for MapPiece<'a> {
    ghost format = { map_piece };

    ghost exact = { map_piece-exact };
}

impl<'a> Node<'a> for MapPiece<'a> {
    #[tactic(auto, unfolding(crate::specs::Maps::map_piece))]
    fn read(_alloc: Global, parser: &mut Parser<'a>) -> Result<MapPiece<'a>, Memory> {
        let token = parser.leaf(Class::MapToken);
        Ok(MapPiece { token })
    }
}

impl<'a> Tree for WrittenMap<'a> {
    ghost format = { written_map };

    ghost exact = { written_map-exact };
}

impl<'a> Node<'a> for WrittenMap<'a> {
    #[tactic(auto, unfolding(crate::specs::Maps::written_map, crate::specs::Maps::map_piece))]
    fn read(alloc: Global, parser: &mut Parser<'a>) -> Result<WrittenMap<'a>, Memory> {
        let keyword = parser.leaf(Class::Exactly(Lexeme::AffineMap));
        let less = parser.leaf(Class::Exactly(Lexeme::Less));
        let tokens = many::<MapPiece>(alloc, parser, Class::MapToken)?;
        let greater = parser.leaf(Class::Exactly(Lexeme::Greater));
        Ok(WrittenMap {
            keyword,
            less,
            tokens,
            greater,
        })
    }
}

impl<'a> Tree for MapUse<'a> {
    ghost format = { map_use };

    ghost exact = { map_use-exact };
}

impl<'a> Node<'a> for MapUse<'a> {
    #[tactic(auto, unfolding(crate::specs::Maps::map_use))]
    fn read(alloc: Global, parser: &mut Parser<'a>) -> Result<MapUse<'a>, Memory> {
        if parser.sees(Class::Alias) {
            let name = parser.leaf(Class::Alias);
            Ok(MapUse::Alias(name))
        } else {
            let map = WrittenMap::read(alloc, parser)?;
            Ok(MapUse::Written(map))
        }
    }
}
