//! A document has one value.

ghost use Rattle.s3_replies.specs.OneValue.{OneBucketList, OneEntityTag, OneError, OneListing, OneUpload};

/// A document has one value: the same bytes are no two errors, listings, bucket lists, ids of an upload or entity tags.
pub fn one_value()
    ensures error { OneError }
    ensures listing { OneListing }
    ensures buckets { OneBucketList }
    ensures upload { OneUpload }
    ensures entity_tag { OneEntityTag }
{}
