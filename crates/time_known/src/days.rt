//! The days of a year, by their month and the day of that month.
ghost use Rattle.std.specs.Prelude.{◌≡◌, ◌++◌, codes, if◌then◌else◌, length};
ghost use Rattle.std.specs.Int.{IsInRange};
ghost use Rattle.time_below.specs.Calendar.{days_in_year, is_leap_year};
ghost use Rattle.time_digits.specs.Digits.{zero_padded};
ghost use Rattle.time_fmt.specs.DateText.{month_name, short_name};
ghost use Rattle.time_known.specs.Days.{day_of_leap_year, month_and_day, month_and_day_in};

use time_below::is_leap_year;
use time_digits::ru16;
use time_digits::tables::piece_of;
use time_provide::ranges::{Ordinal, Year};

// Two digits of the month and two of the day, a space and the month's name, of each day of a leap
// year: eight bytes a day. A common year has all of these but 29 February. By the month and the day
// of the value the rows of RFC 3339 and RFC 2822 are a fifth dearer.
const DAYS: &str = "\
0101 Jan0102 Jan0103 Jan0104 Jan0105 Jan0106 Jan0107 Jan0108 Jan\
0109 Jan0110 Jan0111 Jan0112 Jan0113 Jan0114 Jan0115 Jan0116 Jan\
0117 Jan0118 Jan0119 Jan0120 Jan0121 Jan0122 Jan0123 Jan0124 Jan\
0125 Jan0126 Jan0127 Jan0128 Jan0129 Jan0130 Jan0131 Jan\
0201 Feb0202 Feb0203 Feb0204 Feb0205 Feb0206 Feb0207 Feb0208 Feb\
0209 Feb0210 Feb0211 Feb0212 Feb0213 Feb0214 Feb0215 Feb0216 Feb\
0217 Feb0218 Feb0219 Feb0220 Feb0221 Feb0222 Feb0223 Feb0224 Feb\
0225 Feb0226 Feb0227 Feb0228 Feb0229 Feb\
0301 Mar0302 Mar0303 Mar0304 Mar0305 Mar0306 Mar0307 Mar0308 Mar\
0309 Mar0310 Mar0311 Mar0312 Mar0313 Mar0314 Mar0315 Mar0316 Mar\
0317 Mar0318 Mar0319 Mar0320 Mar0321 Mar0322 Mar0323 Mar0324 Mar\
0325 Mar0326 Mar0327 Mar0328 Mar0329 Mar0330 Mar0331 Mar\
0401 Apr0402 Apr0403 Apr0404 Apr0405 Apr0406 Apr0407 Apr0408 Apr\
0409 Apr0410 Apr0411 Apr0412 Apr0413 Apr0414 Apr0415 Apr0416 Apr\
0417 Apr0418 Apr0419 Apr0420 Apr0421 Apr0422 Apr0423 Apr0424 Apr\
0425 Apr0426 Apr0427 Apr0428 Apr0429 Apr0430 Apr\
0501 May0502 May0503 May0504 May0505 May0506 May0507 May0508 May\
0509 May0510 May0511 May0512 May0513 May0514 May0515 May0516 May\
0517 May0518 May0519 May0520 May0521 May0522 May0523 May0524 May\
0525 May0526 May0527 May0528 May0529 May0530 May0531 May\
0601 Jun0602 Jun0603 Jun0604 Jun0605 Jun0606 Jun0607 Jun0608 Jun\
0609 Jun0610 Jun0611 Jun0612 Jun0613 Jun0614 Jun0615 Jun0616 Jun\
0617 Jun0618 Jun0619 Jun0620 Jun0621 Jun0622 Jun0623 Jun0624 Jun\
0625 Jun0626 Jun0627 Jun0628 Jun0629 Jun0630 Jun\
0701 Jul0702 Jul0703 Jul0704 Jul0705 Jul0706 Jul0707 Jul0708 Jul\
0709 Jul0710 Jul0711 Jul0712 Jul0713 Jul0714 Jul0715 Jul0716 Jul\
0717 Jul0718 Jul0719 Jul0720 Jul0721 Jul0722 Jul0723 Jul0724 Jul\
0725 Jul0726 Jul0727 Jul0728 Jul0729 Jul0730 Jul0731 Jul\
0801 Aug0802 Aug0803 Aug0804 Aug0805 Aug0806 Aug0807 Aug0808 Aug\
0809 Aug0810 Aug0811 Aug0812 Aug0813 Aug0814 Aug0815 Aug0816 Aug\
0817 Aug0818 Aug0819 Aug0820 Aug0821 Aug0822 Aug0823 Aug0824 Aug\
0825 Aug0826 Aug0827 Aug0828 Aug0829 Aug0830 Aug0831 Aug\
0901 Sep0902 Sep0903 Sep0904 Sep0905 Sep0906 Sep0907 Sep0908 Sep\
0909 Sep0910 Sep0911 Sep0912 Sep0913 Sep0914 Sep0915 Sep0916 Sep\
0917 Sep0918 Sep0919 Sep0920 Sep0921 Sep0922 Sep0923 Sep0924 Sep\
0925 Sep0926 Sep0927 Sep0928 Sep0929 Sep0930 Sep\
1001 Oct1002 Oct1003 Oct1004 Oct1005 Oct1006 Oct1007 Oct1008 Oct\
1009 Oct1010 Oct1011 Oct1012 Oct1013 Oct1014 Oct1015 Oct1016 Oct\
1017 Oct1018 Oct1019 Oct1020 Oct1021 Oct1022 Oct1023 Oct1024 Oct\
1025 Oct1026 Oct1027 Oct1028 Oct1029 Oct1030 Oct1031 Oct\
1101 Nov1102 Nov1103 Nov1104 Nov1105 Nov1106 Nov1107 Nov1108 Nov\
1109 Nov1110 Nov1111 Nov1112 Nov1113 Nov1114 Nov1115 Nov1116 Nov\
1117 Nov1118 Nov1119 Nov1120 Nov1121 Nov1122 Nov1123 Nov1124 Nov\
1125 Nov1126 Nov1127 Nov1128 Nov1129 Nov1130 Nov\
1201 Dec1202 Dec1203 Dec1204 Dec1205 Dec1206 Dec1207 Dec1208 Dec\
1209 Dec1210 Dec1211 Dec1212 Dec1213 Dec1214 Dec1215 Dec1216 Dec\
1217 Dec1218 Dec1219 Dec1220 Dec1221 Dec1222 Dec1223 Dec1224 Dec\
1225 Dec1226 Dec1227 Dec1228 Dec1229 Dec1230 Dec1231 Dec";

/// The month and the day of a date, by the day of a leap year that has the same.
#[derive(Clone, Copy)]
pub struct CalendarDay(Ordinal);

impl CalendarDay {
    /// The month and the day of a day of this year. None of them is computed: the table has both.
    #[tactic(auto, using(crate::proofs::DayLemmas::same_month_and_day))]
    pub(crate) fn in_year(year: Year, ordinal: Ordinal) -> CalendarDay
        requires { IsInRange 1 (days_in_year year) ordinal }
        ensures { month_and_day result ≡ month_and_day_in (is_leap_year year) ordinal }
    {
        CalendarDay(day_of_leap_year(is_leap_year(year.get()), ordinal))
    }

    // Two digits of the month, and two of the day.
    pub(crate) fn digits(self) -> (&'static str, &'static str)
        ensures month { result.0.now ≡ zero_padded 2 (month_and_day self).month }
        ensures day { result.1.now ≡ zero_padded 2 (month_and_day self).day }
        ensures month_length { length result.0.now ≡ 2 }
        ensures day_length { length result.1.now ≡ 2 }
    {
        let row = 8 * (self.0.get() as usize - 1);
        (piece_of(DAYS, row, 2), piece_of(DAYS, row + 2, 2))
    }

    // A space and the first letter of the month's English name, and the next two letters.
    pub(crate) fn month_letters(self) -> (&'static str, &'static str)
        ensures text { result.0.now ++ result.1.now
            ≡ codes " " ++ short_name (month_name (month_and_day self).month) }
        ensures first { length result.0.now ≡ 2 }
        ensures rest { length result.1.now ≡ 2 }
    {
        let row = 8 * (self.0.get() as usize - 1);
        (piece_of(DAYS, row + 4, 2), piece_of(DAYS, row + 6, 2))
    }
}

// The day of a leap year with the same month and day.
fn day_of_leap_year(is_leap: bool, ordinal: Ordinal) -> Ordinal
    requires { IsInRange 1 (if is_leap then 366 else 365) ordinal }
    ensures { result ≡ day_of_leap_year is_leap ordinal }
{
    let number = ordinal.get();
    if is_leap || number < 60 {
        ordinal
    } else {
        ru16::within(number + 1)
    }
}
