// Laws of fusions and of sequences. Each is the contract of a function that does nothing.
ghost use Rattle.cd_fuse.specs.Follows.{whole_follow, follow_fits};
ghost use Rattle.cd_fuse.specs.Fuses.{whole_fuse, fuse_fits};
ghost use Rattle.cd_fuse.specs.PartSites.{UpperDoes, LowerDoes, UpperStops, LowerStops, UpperIsTold, LowerIsTold, UpperGets, LowerGets};

/// What an answer to a site of one part is for plain fusion: the same as for that part.
pub fn fusion_sites()
    ensures upper_does { UpperDoes whole_fuse fuse_fits }
    ensures lower_does { LowerDoes whole_fuse fuse_fits }
    ensures upper_stops { UpperStops whole_fuse fuse_fits }
    ensures lower_stops { LowerStops whole_fuse fuse_fits }
    ensures upper_is_told { UpperIsTold whole_fuse fuse_fits }
    ensures lower_is_told { LowerIsTold whole_fuse fuse_fits }
    ensures upper_gets { UpperGets whole_fuse fuse_fits }
    ensures lower_gets { LowerGets whole_fuse fuse_fits }
{}

/// What an answer to a site of one part is for a sequence: the same as for that part.
pub fn sequence_sites()
    ensures upper_does { UpperDoes whole_follow follow_fits }
    ensures lower_does { LowerDoes whole_follow follow_fits }
    ensures upper_stops { UpperStops whole_follow follow_fits }
    ensures lower_stops { LowerStops whole_follow follow_fits }
    ensures upper_is_told { UpperIsTold whole_follow follow_fits }
    ensures lower_is_told { LowerIsTold whole_follow follow_fits }
    ensures upper_gets { UpperGets whole_follow follow_fits }
    ensures lower_gets { LowerGets whole_follow follow_fits }
{}
