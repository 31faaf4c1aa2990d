// What is asked of it is loaded where it lacks.
use crate::stored::StoredForest;
use su_block::BlockSource;
use su_bytes::{FileId, Group, Inum, Name, Place, Refusal, User};
use su_part::Wanted;
use su_reading::{InodeHead, TreeReader};

impl<S: BlockSource> TreeReader for StoredForest<S> {
    ghost use Rattle.su_part_forest.proofs.Lifting.{all_kept};
    ghost use Rattle.su_part_forest.proofs.Reading.{kept_on};
    ghost use Rattle.su_stored_forest.specs.Shows.{Shows, Fails, Follows};

    ghost shows = { Shows S.may_give };

    ghost fails = { Fails S.failed };

    ghost follows = { Follows S.may_give S.follows };

    ghost follows_itself = { λ r. record {
      source = S.follows_itself r.source;
      no_more = λ i gives. gives;
      keeps = all_kept r.forest;
    } };

    ghost follows_on = { λ a b c h k. record {
      source = S.follows_on a.source b.source c.source h.source k.source;
      no_more = λ i gives. h.no_more i (k.no_more i gives);
      keeps = kept_on a.forest b.forest c.forest h.keeps k.keeps;
    } };

    fn body(&mut self, file: FileId) -> Result<Option<Place>, Refusal> {
        self.forest.body_of(&file, &mut self.source)
    }

    fn head(&mut self, place: Place) -> Result<Option<InodeHead>, Refusal> {
        let (user, number) = place;
        self.forest
            .fetch((user, number), &Wanted::Nothing, &mut self.source)?;
        match self.forest.inode((user, number)) {
            Some(inode) => Ok(Some(InodeHead {
                home: inode.home(),
                kind: inode.kind(),
                links: inode.links(),
                size: inode.size(),
            })),
            None => Ok(None),
        }
    }

    fn led_to(&mut self, place: Place, name: &Name) -> Result<Option<FileId>, Refusal> {
        self.forest.name_at(place, name, &mut self.source)
    }

    fn names(&mut self, place: Place) -> Result<Option<Vec<(Name, FileId)>>, Refusal> {
        self.forest.names_at(place, &mut self.source)
    }

    fn bytes(&mut self, place: Place, off: u64, len: u64) -> Result<Option<Vec<u8>>, Refusal> {
        self.forest.bytes_at(place, off, len, &mut self.source)
    }

    fn free_number(&mut self, user: User, from_: Inum) -> Result<Option<Inum>, Refusal> {
        self.least_free(user, from_)
    }

    fn free_group_number(&mut self, group: Group, from_: Inum) -> Result<Option<Inum>, Refusal> {
        self.least_free_in_group(group, from_)
    }

    fn next_inode(&mut self, user: User, from_: Inum) -> Result<Option<Inum>, Refusal> {
        self.least_taken(user, from_)
    }
}
