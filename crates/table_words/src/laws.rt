//! Laws over the definitions alone.
ghost use Rattle.table_words.specs.FreshWords.{FreshWordsListed};
ghost use Rattle.table_words.specs.Layout.{WordsApart, WordsFill, WordsWithin, WritesOne};
ghost use Rattle.table_words.specs.Links.{ClaimSets, LinksRead, LinksSpell};
ghost use Rattle.table_words.specs.NameWords.{NamesRead, NamesSpell};
ghost use Rattle.table_words.specs.Places.{PlacesNumbered};
ghost use Rattle.table_words.specs.Rounds.{RoundsRead, RoundsSpell};
ghost use Rattle.table_words.specs.Setup.{CodesApart};
ghost use Rattle.table_words.specs.Words.{NodesRead, NumbersTell, WritesUpdate};

/// Spelling and reading a word are inverse, the words lie apart and fill the table, and there are
/// those of a fresh one.
pub fn laws()
    ensures links_read { LinksRead }
    ensures links_spell { LinksSpell }
    ensures claim_sets { ClaimSets }
    ensures rounds_read { RoundsRead }
    ensures rounds_spell { RoundsSpell }
    ensures names_read { NamesRead }
    ensures names_spell { NamesSpell }
    ensures words_within { WordsWithin }
    ensures words_apart { WordsApart }
    ensures words_fill { WordsFill }
    ensures writes_one { WritesOne }
    ensures codes_apart { CodesApart }
    ensures places_numbered { PlacesNumbered }
    ensures numbers_tell { NumbersTell }
    ensures nodes_read { NodesRead }
    ensures writes_update { WritesUpdate }
    ensures fresh_listed { FreshWordsListed }
{}
