//! What the program says of itself.

/// The version, with its line feed.
pub(crate) const VERSION: &str = "s3 0.1.0\n";

/// The page that `--help` prints.
pub(crate) const HELP: &str = "\
usage: s3 COMMAND [PATH..] --endpoint-url URL [OPTION..]

The `s3` commands of the AWS CLI, over plain HTTP.

commands:
  cp     copies a file, an object, or with --recursive a tree
           s3 cp notes.txt s3://bucket/notes.txt --endpoint-url http://localhost:9000
  mv     the same, and removes what it copied
           s3 mv notes.txt s3://bucket/old/ --endpoint-url http://localhost:9000
  sync   copies what is missing or differs
           s3 sync photos s3://bucket/photos --endpoint-url http://localhost:9000
  rm     removes objects
           s3 rm s3://bucket/old/ --recursive --endpoint-url http://localhost:9000
  ls     lists buckets, or the objects of one
           s3 ls s3://bucket/photos/ --endpoint-url http://localhost:9000
  presign  prints a URL by which an object can be fetched
           s3 presign s3://bucket/notes.txt --endpoint-url http://localhost:9000

In this version `cp` copies one file to an object, where it is below the settings'
multipart_threshold, and `ls` and `presign` are done; with --dryrun so are `cp` and `mv`
from files and `rm` of one object. What is not built yet ends with `s3: not built yet`
and status 252.

options:
  --endpoint-url URL       http://HOST or http://HOST:PORT; always wanted
  --region NAME            the region that requests are signed for
  --profile NAME           the profile of the settings files
  --recursive              cp, mv, rm, ls: all below a prefix or a folder
  --exclude PATTERN        cp, mv, sync, rm: leaves out names; the last pattern
  --include PATTERN        that matches a name decides (* any text, ? one
                           character, [abc] and [!abc] one of a set or not)
  --dryrun                 cp, mv, sync, rm: says what would be done
  --quiet                  cp, mv, sync, rm: prints fatal errors alone
  --only-show-errors       cp, mv, sync, rm: prints errors and warnings alone
  --size-only              sync: sizes alone tell whether two names differ
  --exact-timestamps       sync: times have to be the same
  --delete                 sync: removes what the source does not have
  --content-type TYPE      cp, mv, sync: the content type of uploads
  --no-guess-mime-type     cp, mv, sync: looks up no content type
  --no-progress            cp, mv, sync: changes nothing
  --expires-in SECONDS     presign: 1 to 604800; without it 3600

keys and region:
  The keys are AWS_ACCESS_KEY_ID and AWS_SECRET_ACCESS_KEY, with AWS_SESSION_TOKEN if
  it is set, unless --profile is given; else those of the profile in ~/.aws/credentials.
  The region is --region, AWS_REGION, AWS_DEFAULT_REGION, or that of the profile in
  ~/.aws/config, where the other settings are, too. AWS_CONFIG_FILE and
  AWS_SHARED_CREDENTIALS_FILE name other files, AWS_PROFILE a profile.

status:
    0  done
    1  something failed, or nobody can know whether it was done; `ls` found no such key
    2  something was skipped with a warning
   70  out of memory
   74  an output failed
  252  the words are not understood, or not built yet
  253  keys, region or profile are missing, or a settings file was not understood or read
  254  `ls`: the service refused a request
  255  `ls`: the answer was lost, or a page was refused

`s3 --version` prints the version.
";
